//! The arrays of guarded code.

ghost use Rattle.std.specs.Prelude.{◌≡◌, IfOk};
ghost use Rattle.std.specs.Option.{option_copied};
ghost use Rattle.branch_removal.specs.GuardedLines.{guarded_index};
ghost use Rattle.branch_removal.specs.Shapes.{shapes_of};

use crate::expression::guarded;
use code_forms::{ArrayShape, GuardExpr};
use domino_check::{Checked, CheckedExpr};
use sqlite_items::Items;
use std::alloc::{AllocError, Global};

// The same index in guarded code, where there is one.
fn guarded_index(
    alloc: Global,
    index: Option<&CheckedExpr>,
) -> Result<Option<GuardExpr>, AllocError>
    ensures { IfOk result (λ g. g ≡ guarded_index (option_copied index.entry)) }
{
    match index {
        Some(index) => Ok(Some(guarded(alloc, index)?)),
        None => Ok(None),
    }
}

/// The program's arrays, each with its index.
pub(crate) fn shapes_of(alloc: Global, checked: &Checked) -> Result<Items<ArrayShape>, AllocError>
    ensures { IfOk result (λ shapes. shapes ≡ shapes_of checked.now) }
{
    let infos = checked.arrays();
    let mut shapes = Items::new(alloc);
    let mut number = 0;
    for info in infos {
        let index = guarded_index(alloc, checked.index(number))?;
        shapes.push(ArrayShape {
            length: info.length,
            start: info.start,
            index,
        })?;
        number += 1;
    }
    Ok(shapes)
}
