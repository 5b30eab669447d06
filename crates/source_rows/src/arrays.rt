//! The arrays in an expression.
ghost use Rattle.std.specs.Prelude.{◌≡◌, ◌++◌, OnOk, IfOk, map, flat_map};
ghost use Rattle.domino_check.specs.NumberedMeaning.{numbered_arrays};

use domino_check::CheckedExpr;
use sqlite_items::Items;
use std::alloc::{AllocError, Global};

/// The arrays in an expression, in text order.
pub(crate) fn arrays_in(alloc: Global, expr: &CheckedExpr) -> Result<Items<u32>, AllocError>
    ensures { IfOk result (λ arrays. arrays ≡ numbered_arrays expr.now) }
{
    let mut arrays = Items::new(alloc);
    push_arrays(&mut arrays, expr)?;
    Ok(arrays)
}

/// The arrays in an expression go to the end of the list.
#[cycle(push_arrays)]
pub(crate) fn push_arrays(out: &mut Items<u32>, expr: &CheckedExpr) -> Result<(), AllocError>
    ensures { OnOk result (out.new ≡ out.old ++ numbered_arrays expr.now) }
{
    match expr {
        CheckedExpr::Number(_) | CheckedExpr::Field(_) => Ok(()),
        CheckedExpr::Cell(array) => out.push(*array),
        CheckedExpr::One(_, a) => push_arrays(out, a.get()),
        CheckedExpr::Two(_, a, b) => {
            push_arrays(out, a.get())?;
            push_arrays(out, b.get())
        }
        CheckedExpr::Pick(cond, a, b) => {
            push_arrays(out, cond.get())?;
            push_arrays(out, a.get())?;
            push_arrays(out, b.get())
        }
        CheckedExpr::Hash(_, args) => push_all_arrays(out, args.as_slice()),
    }
}

#[cycle(push_arrays)]
fn push_all_arrays(out: &mut Items<u32>, args: &[CheckedExpr]) -> Result<(), AllocError>
    ensures { OnOk result
        (out.new ≡ out.old ++ flat_map (λ arrays. arrays) (map numbered_arrays args.now)) }
{
    for arg in args {
        push_arrays(out, arg)?;
    }
    Ok(())
}
