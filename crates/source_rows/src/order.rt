//! The arrays that the sites of a body touch, in text order.
ghost use Rattle.std.specs.Prelude.{◌≡◌, ◌++◌, OnOk, IfOk};
ghost use Rattle.domino_check.specs.Place.{text_order};
ghost use Rattle.source_rows.specs.Order.{body_touched, stmt_touched, arms_touched, arm_touched};

use crate::arrays::push_arrays;
use domino_check::{Checked, CheckedArm, CheckedStmt};
use sqlite_items::Items;
use std::alloc::{AllocError, Global};

/// The arrays that the sites of a program touch, in text order.
pub fn text_order(alloc: Global, checked: &Checked) -> Result<Items<u32>, AllocError>
    ensures { IfOk result (λ arrays. arrays ≡ text_order checked.now) }
{
    let mut arrays = Items::new(alloc);
    push_block(&mut arrays, checked.body())?;
    Ok(arrays)
}

// Those of a body go to the end of the list.
#[cycle(push_block)]
fn push_block(out: &mut Items<u32>, body: &[CheckedStmt]) -> Result<(), AllocError>
    ensures { OnOk result (out.new ≡ out.old ++ body_touched body.now) }
{
    for stmt in body {
        push_stmt(out, stmt)?;
    }
    Ok(())
}

#[cycle(push_block)]
fn push_stmt(out: &mut Items<u32>, stmt: &CheckedStmt) -> Result<(), AllocError>
    ensures { OnOk result (out.new ≡ out.old ++ stmt_touched stmt.now) }
{
    match stmt {
        CheckedStmt::SetField(_, expr) => push_arrays(out, expr),
        CheckedStmt::SetCell(array, expr) => {
            out.push(*array)?;
            push_arrays(out, expr)
        }
        CheckedStmt::If(arms, None) => push_arms(out, arms.as_slice()),
        CheckedStmt::If(arms, Some(body)) => {
            push_arms(out, arms.as_slice())?;
            push_block(out, body.as_slice())
        }
    }
}

#[cycle(push_block)]
fn push_arms(out: &mut Items<u32>, arms: &[CheckedArm]) -> Result<(), AllocError>
    ensures { OnOk result (out.new ≡ out.old ++ arms_touched arms.now) }
{
    for arm in arms {
        push_arm(out, arm)?;
    }
    Ok(())
}

// Those of the condition, and then those of the block.
#[cycle(push_block)]
fn push_arm(out: &mut Items<u32>, arm: &CheckedArm) -> Result<(), AllocError>
    ensures { OnOk result (out.new ≡ out.old ++ arm_touched arm.now) }
{
    push_arrays(out, &arm.cond)?;
    push_block(out, arm.body.as_slice())
}
