//! The one call of the pass.

ghost use Rattle.std.specs.Prelude.{◌≡◌, ◌<◌, ◌^◌, ℕ, List, length, IfOk};
ghost use Rattle.mp5_words.specs.Domain.{sources, marks, Mark};
ghost use Rattle.domino_tree.specs.Count.{count_of};
ghost use Rattle.domino_check.specs.Numbering.{numbered_body};
ghost use Rattle.code_forms.specs.GuardMeaning.{length_at};
ghost use Rattle.branch_removal.specs.GuardedLines.{body_lines};
ghost use Rattle.branch_removal.specs.Shapes.{shapes_of};
ghost use Rattle.branch_removal.specs.Kept.{KeepsMeaning};
ghost use Rattle.branch_removal.specs.Followed.{Follows};

use crate::lines::body_lines;
use crate::shapes::shapes_of;
use code_forms::GuardCode;
use domino_check::Checked;
use mp5_words::NoMemory;
use sqlite_items::Items;
use std::alloc::Global;

/// The guarded code of a program: the same fields and arrays, and its body as lines under guards. It is refused
/// only where memory runs out. The program's count fits 32 bits, as that of each program does which is read.
pub fn remove_branches(alloc: Global, checked: &Checked) -> Result<GuardCode, NoMemory>
    requires { count_of checked.now < 2 ^ 32 }
    ensures fields { IfOk result (λ c. c.fields ≡ length checked.now.packet.fields) }
    ensures arrays { IfOk result (λ c. c.arrays ≡ shapes_of checked.now) }
    ensures lines { IfOk result (λ c. c.lines ≡ body_lines (numbered_body checked.now)) }
    // For all fields and cells the lines give the execution's fields, cells and touched arrays.
    ensures keeps { IfOk result (λ c. KeepsMeaning checked.now c.arrays c.lines) }
    // For every header they do what the walk over the source does: with the arrays behind each value, and with
    // what the header alone tells of it.
    ensures sources { IfOk result (λ c. Follows (List ℕ) sources checked.now c.arrays c.lines) }
    ensures marks { IfOk result (λ c. Follows Mark (marks (length_at c.arrays)) checked.now
        c.arrays c.lines) }
{
    let program = checked.program();
    let arrays = shapes_of(alloc, checked)?;
    let lines = body_lines(alloc, checked.body())?;
    Ok(GuardCode {
        fields: program.packet.fields.len() as u32,
        arrays,
        lines: Items::from_vec(lines),
    })
}
