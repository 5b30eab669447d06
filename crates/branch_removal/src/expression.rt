//! Expressions of guarded code.

ghost use Rattle.std.specs.Prelude.{◌≡◌, IfOk, map};
ghost use Rattle.branch_removal.specs.GuardedLines.{guarded};

use code_forms::GuardExpr;
use domino_check::CheckedExpr;
use sqlite_items::{Boxed, Items};
use std::alloc::{AllocError, Global};

/// The same expression in guarded code.
#[cycle(expr)]
pub(crate) fn guarded(alloc: Global, expr: &CheckedExpr) -> Result<GuardExpr, AllocError>
    ensures { IfOk result (λ g. g ≡ guarded expr.now) }
{
    match expr {
        CheckedExpr::Number(n) => Ok(GuardExpr::Number(*n)),
        CheckedExpr::Field(f) => Ok(GuardExpr::Field(*f)),
        CheckedExpr::Cell(a) => Ok(GuardExpr::Cell(*a)),
        CheckedExpr::One(op, a) => {
            let a = guarded(alloc, a.get())?;
            Ok(GuardExpr::One(*op, Boxed::new(alloc, a)?))
        }
        CheckedExpr::Two(op, a, b) => {
            let a = guarded(alloc, a.get())?;
            let b = guarded(alloc, b.get())?;
            Ok(GuardExpr::Two(*op, Boxed::new(alloc, a)?, Boxed::new(alloc, b)?))
        }
        CheckedExpr::Pick(c, a, b) => {
            let c = guarded(alloc, c.get())?;
            let a = guarded(alloc, a.get())?;
            let b = guarded(alloc, b.get())?;
            Ok(GuardExpr::Pick(
                Boxed::new(alloc, c)?,
                Boxed::new(alloc, a)?,
                Boxed::new(alloc, b)?,
            ))
        }
        CheckedExpr::Hash(kind, args) => Ok(GuardExpr::Hash(
            *kind,
            guarded_all(alloc, args.as_slice())?,
        )),
    }
}

// The same expressions in guarded code.
#[cycle(expr)]
fn guarded_all(alloc: Global, args: &[CheckedExpr]) -> Result<Items<GuardExpr>, AllocError>
    ensures { IfOk result (λ all. all ≡ map guarded args.now) }
{
    let mut all = Items::new(alloc);
    for arg in args {
        all.push(guarded(alloc, arg)?)?;
    }
    Ok(all)
}
