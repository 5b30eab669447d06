//! The walk over a body, with the arrays behind each value.
ghost use Rattle.std.specs.Prelude.{◌≡◌, ◌<◌, [], IfOk, OnOk, None, length, replicate};
ghost use Rattle.mp5_words.specs.Copies.{touched};
ghost use Rattle.mp5_words.specs.Domain.{sources};
ghost use Rattle.domino_names.specs.Infos.{infos_of};
ghost use Rattle.domino_check.specs.NumberedMeaning.{numbered_arrays};
ghost use Rattle.domino_check.specs.SourceGroups.{source_walk, no_sources};
ghost use Rattle.source_rows.specs.State.{state_of, behind_arm, ArmLeads, ArmsLead};
ghost use Rattle.source_rows.specs.Views.{Sources, indexes_in, touching, stmt_walk, block_walk, guard_in, touching_all, field_walk, cell_walk, set_value, stored_value};

use crate::arrays::arrays_in;
use crate::sets::{alone, both, put_set, set_at};
use crate::values::{Copied, index, put_copy, take_copy, value};
use domino_check::{Checked, CheckedArm, CheckedExpr, CheckedStmt};
use sqlite_items::Items;
use std::alloc::{AllocError, Global};

/// A walk under way, or at its end: the arrays behind each field, and what is known of each array.
#[derive(Drop)]
pub struct Walked {
    pub fields: Vec<Items<u32>>,
    pub copies: Vec<Option<Copied>>,
}

/// The walk over a program.
pub fn walk(alloc: Global, checked: &Checked) -> Result<Walked, AllocError>
    ensures { IfOk result (λ w. state_of w ≡ source_walk checked.now) }
{
    let mut walked = start(alloc, checked)?;
    walk_block(alloc, checked, checked.body(), &None, &mut walked)?;
    Ok(walked)
}

// Statements in text order, in this context: what is behind the conditions that decide about them, or None outside
// every `if`.
#[cycle(walk)]
fn walk_block(
    alloc: Global,
    checked: &Checked,
    body: &[CheckedStmt],
    context: &Option<Items<u32>>,
    walked: &mut Walked,
) -> Result<(), AllocError>
    requires { length walked.old.copies.items ≡ length (infos_of checked.now) }
    ensures walked { OnOk result (state_of walked.new
        ≡ block_walk checked.now body.now context.now (state_of walked.old)) }
    ensures long { OnOk result (length walked.new.copies.items ≡ length (infos_of checked.now)) }
{
    for stmt in body {
        walk_stmt(alloc, checked, stmt, context, walked)?;
    }
    Ok(())
}

#[cycle(walk)]
fn walk_stmt(
    alloc: Global,
    checked: &Checked,
    stmt: &CheckedStmt,
    context: &Option<Items<u32>>,
    walked: &mut Walked,
) -> Result<(), AllocError>
    requires { length walked.old.copies.items ≡ length (infos_of checked.now) }
    ensures walked { OnOk result (state_of walked.new
        ≡ stmt_walk checked.now stmt.now context.now (state_of walked.old)) }
    ensures long { OnOk result (length walked.new.copies.items ≡ length (infos_of checked.now)) }
{
    match stmt {
        CheckedStmt::SetField(field, expr) => {
            set_field(alloc, checked, *field, expr, context, walked)
        }
        CheckedStmt::SetCell(array, expr) => {
            set_cell(alloc, checked, *array, expr, context, walked)
        }
        CheckedStmt::If(arms, last) => {
            let otherwise = walk_arms(alloc, checked, arms.as_slice(), context, walked)?;
            match last {
                Some(body) => walk_block(alloc, checked, body.as_slice(), &otherwise, walked),
                None => Ok(()),
            }
        }
    }
}

// The arms of a chain. Gives the context in which none of their conditions holds.
#[cycle(walk)]
fn walk_arms(
    alloc: Global,
    checked: &Checked,
    arms: &[CheckedArm],
    context: &Option<Items<u32>>,
    walked: &mut Walked,
) -> Result<Option<Items<u32>>, AllocError>
    requires { length walked.old.copies.items ≡ length (infos_of checked.now) }
    ensures walked { IfOk result (ArmsLead checked.now arms.now context.now walked.old walked.new) }
    ensures long { OnOk result (length walked.new.copies.items ≡ length (infos_of checked.now)) }
{
    let mut otherwise = copied(alloc, context)?;
    for arm in arms {
        otherwise = Some(walk_arm(alloc, checked, arm, &otherwise, walked)?);
    }
    Ok(otherwise)
}

// An arm: its condition, and its block. Gives what is behind the failing of the condition.
#[cycle(walk)]
fn walk_arm(
    alloc: Global,
    checked: &Checked,
    arm: &CheckedArm,
    context: &Option<Items<u32>>,
    walked: &mut Walked,
) -> Result<Items<u32>, AllocError>
    requires { length walked.old.copies.items ≡ length (infos_of checked.now) }
    ensures fails { IfOk result
        (λ fails. fails ≡ behind_arm checked.now arm.now context.now walked.old) }
    ensures walked { IfOk result (ArmLeads checked.now arm.now context.now walked.old walked.new) }
    ensures long { OnOk result (length walked.new.copies.items ≡ length (infos_of checked.now)) }
{
    let guard = guard(alloc, checked, context)?;
    touch_all(alloc, checked, &arm.cond, guard.as_slice(), walked)?;
    let cond = value(alloc, &arm.cond, &walked.fields, &walked.copies)?;
    let holds = Some(both(alloc, guard.as_slice(), cond.as_slice())?);
    walk_block(alloc, checked, arm.body.as_slice(), &holds, walked)?;
    both(alloc, guard.as_slice(), cond.as_slice())
}

// Before the first statement nothing is behind a field, and no array is touched.
fn start(alloc: Global, checked: &Checked) -> Result<Walked, AllocError>
    ensures fields { IfOk result (λ w. w.fields.items ≡ no_sources checked.now) }
    ensures copies { IfOk result
        (λ w. w.copies.items ≡ replicate (length (infos_of checked.now)) None) }
{
    let fields = checked.program().packet.fields.len();
    Ok(Walked {
        fields: empty_sets(alloc, fields)?,
        copies: no_copies(alloc, checked.arrays().len())?,
    })
}

fn empty_sets(alloc: Global, count: usize) -> Result<Vec<Items<u32>>, AllocError>
    ensures { IfOk result (λ sets. sets.items ≡ replicate count []) }
{
    let mut sets = Vec::new(alloc);
    for _ in 0..count {
        sets.push(Items::new(alloc))?;
    }
    Ok(sets)
}

fn no_copies(alloc: Global, count: usize) -> Result<Vec<Option<Copied>>, AllocError>
    ensures { IfOk result (λ copies. copies.items ≡ replicate count None) }
{
    let mut copies = Vec::new(alloc);
    for _ in 0..count {
        copies.push(None)?;
    }
    Ok(copies)
}

// The same context.
fn copied(alloc: Global, context: &Option<Items<u32>>) -> Result<Option<Items<u32>>, AllocError>
    ensures { IfOk result (λ copy. copy ≡ context.now) }
{
    match context {
        Some(guard) => Ok(Some(Items::from_slice(alloc, guard.as_slice())?)),
        None => Ok(None),
    }
}

// What is behind the guard in a context.
fn guard(
    alloc: Global,
    checked: &Checked,
    context: &Option<Items<u32>>,
) -> Result<Items<u32>, AllocError>
    ensures { IfOk result (λ guard. guard ≡ guard_in checked.now context.now) }
{
    let _program = checked.program();
    match context {
        Some(guard) => Items::from_slice(alloc, guard.as_slice()),
        None => Ok(Items::new(alloc)),
    }
}

// An assignment to a field.
fn set_field(
    alloc: Global,
    checked: &Checked,
    field: u32,
    expr: &CheckedExpr,
    context: &Option<Items<u32>>,
    walked: &mut Walked,
) -> Result<(), AllocError>
    requires { length walked.old.copies.items ≡ length (infos_of checked.now) }
    ensures walked { OnOk result (state_of walked.new
        ≡ field_walk checked.now field expr.now context.now (state_of walked.old)) }
    ensures long { OnOk result (length walked.new.copies.items ≡ length (infos_of checked.now)) }
{
    let guard = guard(alloc, checked, context)?;
    touch_all(alloc, checked, expr, guard.as_slice(), walked)?;
    let right = value(alloc, expr, &walked.fields, &walked.copies)?;
    let old = set_at(alloc, &walked.fields, field as usize)?;
    let new = set_value(alloc, checked, context, right.as_slice(), old.as_slice())?;
    put_set(&mut walked.fields, field as usize, new);
    Ok(())
}

// What an assignment leaves behind a field.
fn set_value(
    alloc: Global,
    checked: &Checked,
    context: &Option<Items<u32>>,
    right: &[u32],
    old: &[u32],
) -> Result<Items<u32>, AllocError>
    ensures { IfOk result (λ set. set ≡ set_value checked.now context.now right.now old.now) }
{
    let _program = checked.program();
    match context {
        Some(guard) => {
            let rest = both(alloc, right, old)?;
            both(alloc, guard.as_slice(), rest.as_slice())
        }
        None => Items::from_slice(alloc, right),
    }
}

// An assignment to a cell, whose array is touched before those of the right side.
fn set_cell(
    alloc: Global,
    checked: &Checked,
    array: u32,
    expr: &CheckedExpr,
    context: &Option<Items<u32>>,
    walked: &mut Walked,
) -> Result<(), AllocError>
    requires { length walked.old.copies.items ≡ length (infos_of checked.now) }
    ensures walked { OnOk result (state_of walked.new
        ≡ cell_walk checked.now array expr.now context.now (state_of walked.old)) }
    ensures long { OnOk result (length walked.new.copies.items ≡ length (infos_of checked.now)) }
{
    let guard = guard(alloc, checked, context)?;
    touch(alloc, checked, array, guard.as_slice(), walked)?;
    touch_all(alloc, checked, expr, guard.as_slice(), walked)?;
    let right = value(alloc, expr, &walked.fields, &walked.copies)?;
    let old = take_copy(&mut walked.copies, array as usize);
    let new = stored(alloc, checked, array, context, right, old)?;
    put_copy(&mut walked.copies, array as usize, new);
    Ok(())
}

// What is known of an array after an assignment.
fn stored(
    alloc: Global,
    checked: &Checked,
    array: u32,
    context: &Option<Items<u32>>,
    right: Items<u32>,
    old: Option<Copied>,
) -> Result<Option<Copied>, AllocError>
    ensures { IfOk result (λ copy. copy ≡ stored_value checked.now array context.now right old) }
{
    let _program = checked.program();
    match old {
        Some(mut copied) => {
            copied.latest = alone(alloc, array)?;
            copied.stored.push(right)?;
            Ok(Some(copied))
        }
        None => Ok(None),
    }
}

// The arrays in an expression are touched, one after another.
fn touch_all(
    alloc: Global,
    checked: &Checked,
    expr: &CheckedExpr,
    guard: &[u32],
    walked: &mut Walked,
) -> Result<(), AllocError>
    requires { length walked.old.copies.items ≡ length (infos_of checked.now) }
    ensures walked { OnOk result (state_of walked.new
        ≡ touching_all checked.now (numbered_arrays expr.now) guard.now (state_of walked.old)) }
    ensures long { OnOk result (length walked.new.copies.items ≡ length (infos_of checked.now)) }
{
    let arrays = arrays_in(alloc, expr)?;
    touch_each(alloc, checked, arrays.as_slice(), guard, walked)
}

// Arrays are touched, one after another.
fn touch_each(
    alloc: Global,
    checked: &Checked,
    arrays: &[u32],
    guard: &[u32],
    walked: &mut Walked,
) -> Result<(), AllocError>
    requires { length walked.old.copies.items ≡ length (infos_of checked.now) }
    ensures walked { OnOk result (state_of walked.new
        ≡ touching_all checked.now arrays.now guard.now (state_of walked.old)) }
    ensures long { OnOk result (length walked.new.copies.items ≡ length (infos_of checked.now)) }
{
    for array in arrays {
        touch(alloc, checked, *array, guard, walked)?;
    }
    Ok(())
}

// An array is touched.
fn touch(
    alloc: Global,
    checked: &Checked,
    array: u32,
    guard: &[u32],
    walked: &mut Walked,
) -> Result<(), AllocError>
    requires { length walked.old.copies.items ≡ length (infos_of checked.now) }
    ensures fields { OnOk result (walked.new.fields.items ≡ walked.old.fields.items) }
    ensures copies { OnOk result (walked.new.copies.items
        ≡ touching checked.now walked.old.fields.items guard.now walked.old.copies.items array) }
    ensures long { OnOk result (length walked.new.copies.items ≡ length (infos_of checked.now)) }
{
    if walked.copies.len() <= array as usize {
        return Ok(());
    }
    let old = take_copy(&mut walked.copies, array as usize);
    let new = touched(alloc, checked, array, guard, &walked.fields, old)?;
    put_copy(&mut walked.copies, array as usize, Some(new));
    Ok(())
}

// What is known of an array once it is touched under a guard.
fn touched(
    alloc: Global,
    checked: &Checked,
    array: u32,
    guard: &[u32],
    fields: &[Items<u32>],
    old: Option<Copied>,
) -> Result<Copied, AllocError>
    requires { array < length (infos_of checked.now) }
    ensures { IfOk result (λ copy. copy
        ≡ touched Sources sources array (indexes_in checked.now array fields.now) guard.now old) }
{
    let guard = Items::from_slice(alloc, guard)?;
    match old {
        Some(mut copied) => {
            copied.under.push(guard)?;
            Ok(copied)
        }
        None => {
            let mut under = Items::new(alloc);
            under.push(guard)?;
            Ok(Copied {
                index: index(alloc, checked.index(array), fields)?,
                latest: alone(alloc, array)?,
                under,
                stored: Items::new(alloc),
            })
        }
    }
}
