//! The groups of a program's arrays.
ghost use Rattle.std.specs.Prelude.{◌≡◌, ◌↔◌, IsTrue, IfOk, None};
ghost use Rattle.std.specs.List.{slice_index_or};
ghost use Rattle.domino_check.specs.SourceGroups.{AreSourceGroups, HasCopy};
ghost use Rattle.source_rows.specs.Marks.{Marks};

use crate::sources::walk;
use crate::table::table_of;
use crate::values::Copied;
use dependence::{ArrayGroups, close, number_groups};
use domino_check::Checked;
use mp5_words::NoMemory;
use std::alloc::Global;

/// The number of each array's group: arrays that need each other, directly or through others, are of one group. Groups
/// are numbered by level, and within a level by least array.
pub fn groups_of(alloc: Global, checked: &Checked) -> Result<ArrayGroups, NoMemory>
    ensures { IfOk result (λ g. AreSourceGroups checked.now g.count g.of) }
{
    let walked = walk(alloc, checked)?;
    let mut table = table_of(&walked.copies);
    close(&mut table);
    let touched = touched_in(&walked.copies);
    let _program = checked.program();
    Ok(number_groups(&table, &touched))
}

// Whether each of sixteen arrays is touched.
fn touched_in(copies: &[Option<Copied>]) -> [bool; 16]
    ensures { Marks result (λ a. HasCopy (slice_index_or copies.now a None)) }
{
    let mut row = [false; 16];
    for a in 0..16 {
        row[a] = is_touched(copies, a);
    }
    row
}

fn is_touched(copies: &[Option<Copied>], a: usize) -> bool
    ensures { IsTrue result ↔ HasCopy (slice_index_or copies.now a None) }
{
    if copies.len() <= a {
        return false;
    }
    copies[a].is_some()
}
