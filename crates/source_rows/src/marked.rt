//! The walk over a body, with what a header tells of each value.
ghost use Rattle.std.specs.Prelude.{◌≡◌, ◌<◌, IfOk, OnOk, None, length, replicate};
ghost use Rattle.mp5_words.specs.Copies.{touched};
ghost use Rattle.mp5_words.specs.Domain.{Mark as Known};
ghost use Rattle.domino_names.specs.Infos.{infos_of};
ghost use Rattle.domino_check.specs.NumberedMeaning.{numbered_arrays};
ghost use Rattle.domino_check.specs.Place.{marked_walk, header_marks};
ghost use Rattle.source_rows.specs.MarkState.{state_of, holds_under, fails_under, ArmLeads, ArmsLead};
ghost use Rattle.source_rows.specs.MarkViews.{marks_of, indexes_in, touching, stmt_walk, block_walk};
ghost use Rattle.source_rows.specs.MarkViews.{guard_in, touching_all, field_walk, cell_walk, set_value, stored_value};

use crate::arrays::arrays_in;
use crate::mark::{Mark, copy_of, known, mark_at, no, pick, put_mark, same, yes};
use crate::mark_values::{Copied, index, put_copy, take_copy, value};
use domino_check::{Checked, CheckedArm, CheckedExpr, CheckedStmt};
use sqlite_items::Items;
use std::alloc::{AllocError, Global};

/// A walk under way, or at its end: what the header tells of each field and of each array.
#[derive(Drop)]
pub struct Walked {
    pub fields: Vec<Mark>,
    pub copies: Vec<Option<Copied>>,
}

/// The walk over a program from a header's words on.
pub fn walk(alloc: Global, checked: &Checked, header: &[i32]) -> Result<Walked, AllocError>
    ensures walked { IfOk result (λ w. state_of w ≡ marked_walk checked.now header.now) }
    ensures long { IfOk result (λ w. length w.copies.items ≡ length (infos_of checked.now)) }
{
    let mut walked = start(alloc, checked, header)?;
    walk_block(alloc, checked, checked.body(), &None, &mut walked)?;
    Ok(walked)
}

// Statements in text order, under this guard, or None outside every `if`.
#[cycle(walk)]
fn walk_block(
    alloc: Global,
    checked: &Checked,
    body: &[CheckedStmt],
    context: &Option<Mark>,
    walked: &mut Walked,
) -> Result<(), AllocError>
    requires { length walked.old.copies.items ≡ length (infos_of checked.now) }
    ensures walked { OnOk result (state_of walked.new
        ≡ block_walk checked.now body.now context.now (state_of walked.old)) }
    ensures long { OnOk result (length walked.new.copies.items ≡ length (infos_of checked.now)) }
{
    for stmt in body {
        walk_stmt(alloc, checked, stmt, context, walked)?;
    }
    Ok(())
}

#[cycle(walk)]
fn walk_stmt(
    alloc: Global,
    checked: &Checked,
    stmt: &CheckedStmt,
    context: &Option<Mark>,
    walked: &mut Walked,
) -> Result<(), AllocError>
    requires { length walked.old.copies.items ≡ length (infos_of checked.now) }
    ensures walked { OnOk result (state_of walked.new
        ≡ stmt_walk checked.now stmt.now context.now (state_of walked.old)) }
    ensures long { OnOk result (length walked.new.copies.items ≡ length (infos_of checked.now)) }
{
    match stmt {
        CheckedStmt::SetField(field, expr) => {
            set_field(alloc, checked, *field, expr, context, walked)
        }
        CheckedStmt::SetCell(array, expr) => {
            set_cell(alloc, checked, *array, expr, context, walked)
        }
        CheckedStmt::If(arms, last) => {
            let otherwise = walk_arms(alloc, checked, arms.as_slice(), context, walked)?;
            match last {
                Some(body) => walk_block(alloc, checked, body.as_slice(), &otherwise, walked),
                None => Ok(()),
            }
        }
    }
}

/// The guards under which the condition of an arm holds and fails.
#[derive(Drop)]
pub struct Branch {
    pub holds: Mark,
    pub fails: Mark,
}

// The arms of a chain. Gives the context in which none of their conditions holds.
#[cycle(walk)]
fn walk_arms(
    alloc: Global,
    checked: &Checked,
    arms: &[CheckedArm],
    context: &Option<Mark>,
    walked: &mut Walked,
) -> Result<Option<Mark>, AllocError>
    requires { length walked.old.copies.items ≡ length (infos_of checked.now) }
    ensures walked { IfOk result (ArmsLead checked.now arms.now context.now walked.old walked.new) }
    ensures long { OnOk result (length walked.new.copies.items ≡ length (infos_of checked.now)) }
{
    let mut otherwise = copied(alloc, context)?;
    for arm in arms {
        let branch = walk_arm(alloc, checked, arm, &otherwise, walked)?;
        otherwise = Some(branch.fails);
    }
    Ok(otherwise)
}

// An arm: its condition, and its block. Gives the guards under which the condition holds and fails.
#[cycle(walk)]
fn walk_arm(
    alloc: Global,
    checked: &Checked,
    arm: &CheckedArm,
    context: &Option<Mark>,
    walked: &mut Walked,
) -> Result<Branch, AllocError>
    requires { length walked.old.copies.items ≡ length (infos_of checked.now) }
    ensures holds { IfOk result
        (λ b. b.holds ≡ holds_under checked.now arm.now context.now walked.old) }
    ensures fails { IfOk result
        (λ b. b.fails ≡ fails_under checked.now arm.now context.now walked.old) }
    ensures walked { IfOk result (ArmLeads checked.now arm.now context.now walked.old walked.new) }
    ensures long { OnOk result (length walked.new.copies.items ≡ length (infos_of checked.now)) }
{
    let guard = guard(alloc, checked, context)?;
    touch_all(alloc, checked, &arm.cond, &guard, walked)?;
    let cond = value(alloc, &arm.cond, &walked.fields, &walked.copies)?;
    let holds = yes(alloc, &guard, &cond)?;
    let fails = no(alloc, &guard, &cond)?;
    let context = Some(same(alloc, &holds)?);
    walk_block(alloc, checked, arm.body.as_slice(), &context, walked)?;
    Ok(Branch { holds, fails })
}

// Before the first statement the fields are the header's words, and no array is touched.
fn start(alloc: Global, checked: &Checked, header: &[i32]) -> Result<Walked, AllocError>
    ensures fields { IfOk result (λ w. w.fields.items ≡ header_marks header.now) }
    ensures copies { IfOk result
        (λ w. w.copies.items ≡ replicate (length (infos_of checked.now)) None) }
{
    Ok(Walked {
        fields: words(alloc, header)?,
        copies: no_copies(alloc, checked.arrays().len())?,
    })
}

fn words(alloc: Global, header: &[i32]) -> Result<Vec<Mark>, AllocError>
    ensures { IfOk result (λ all. all.items ≡ header_marks header.now) }
{
    let mut all = Vec::new(alloc);
    for word in header {
        all.push(known(alloc, *word))?;
    }
    Ok(all)
}

fn no_copies(alloc: Global, count: usize) -> Result<Vec<Option<Copied>>, AllocError>
    ensures { IfOk result (λ copies. copies.items ≡ replicate count None) }
{
    let mut copies = Vec::new(alloc);
    for _ in 0..count {
        copies.push(None)?;
    }
    Ok(copies)
}

// The same context.
fn copied(alloc: Global, context: &Option<Mark>) -> Result<Option<Mark>, AllocError>
    ensures { IfOk result (λ copy. copy ≡ context.now) }
{
    match context {
        Some(guard) => Ok(Some(same(alloc, guard)?)),
        None => Ok(None),
    }
}

// The guard in a context.
fn guard(alloc: Global, checked: &Checked, context: &Option<Mark>) -> Result<Mark, AllocError>
    ensures { IfOk result (λ guard. guard ≡ guard_in checked.now context.now) }
{
    let _program = checked.program();
    match context {
        Some(guard) => same(alloc, guard),
        None => Ok(known(alloc, 1)),
    }
}

// An assignment to a field.
fn set_field(
    alloc: Global,
    checked: &Checked,
    field: u32,
    expr: &CheckedExpr,
    context: &Option<Mark>,
    walked: &mut Walked,
) -> Result<(), AllocError>
    requires { length walked.old.copies.items ≡ length (infos_of checked.now) }
    ensures walked { OnOk result (state_of walked.new
        ≡ field_walk checked.now field expr.now context.now (state_of walked.old)) }
    ensures long { OnOk result (length walked.new.copies.items ≡ length (infos_of checked.now)) }
{
    let guard = guard(alloc, checked, context)?;
    touch_all(alloc, checked, expr, &guard, walked)?;
    let right = value(alloc, expr, &walked.fields, &walked.copies)?;
    let old = mark_at(alloc, &walked.fields, field as usize)?;
    let new = set_value(alloc, checked, context, right, &old)?;
    put_mark(&mut walked.fields, field as usize, new);
    Ok(())
}

// What an assignment leaves in a field.
fn set_value(
    alloc: Global,
    checked: &Checked,
    context: &Option<Mark>,
    right: Mark,
    old: &Mark,
) -> Result<Mark, AllocError>
    ensures { IfOk result (λ m. m ≡ set_value checked.now context.now right old.now) }
{
    let _program = checked.program();
    match context {
        Some(guard) => pick(alloc, guard, &right, old),
        None => Ok(right),
    }
}

// An assignment to a cell, whose array is touched before those of the right side.
fn set_cell(
    alloc: Global,
    checked: &Checked,
    array: u32,
    expr: &CheckedExpr,
    context: &Option<Mark>,
    walked: &mut Walked,
) -> Result<(), AllocError>
    requires { length walked.old.copies.items ≡ length (infos_of checked.now) }
    ensures walked { OnOk result (state_of walked.new
        ≡ cell_walk checked.now array expr.now context.now (state_of walked.old)) }
    ensures long { OnOk result (length walked.new.copies.items ≡ length (infos_of checked.now)) }
{
    let guard = guard(alloc, checked, context)?;
    touch(alloc, checked, array, &guard, walked)?;
    touch_all(alloc, checked, expr, &guard, walked)?;
    let right = value(alloc, expr, &walked.fields, &walked.copies)?;
    let old = take_copy(&mut walked.copies, array as usize);
    let new = stored(alloc, checked, array, context, right, old)?;
    put_copy(&mut walked.copies, array as usize, new);
    Ok(())
}

// What is known of an array after an assignment.
fn stored(
    alloc: Global,
    checked: &Checked,
    array: u32,
    context: &Option<Mark>,
    right: Mark,
    old: Option<Copied>,
) -> Result<Option<Copied>, AllocError>
    ensures { IfOk result (λ copy. copy ≡ stored_value checked.now array context.now right old) }
{
    let _program = checked.program();
    match old {
        Some(mut copied) => {
            copied.latest = copy_of(alloc, array)?;
            copied.stored.push(right)?;
            Ok(Some(copied))
        }
        None => Ok(None),
    }
}

// The arrays in an expression are touched, one after another.
fn touch_all(
    alloc: Global,
    checked: &Checked,
    expr: &CheckedExpr,
    guard: &Mark,
    walked: &mut Walked,
) -> Result<(), AllocError>
    requires { length walked.old.copies.items ≡ length (infos_of checked.now) }
    ensures walked { OnOk result (state_of walked.new
        ≡ touching_all checked.now (numbered_arrays expr.now) guard.now (state_of walked.old)) }
    ensures long { OnOk result (length walked.new.copies.items ≡ length (infos_of checked.now)) }
{
    let arrays = arrays_in(alloc, expr)?;
    touch_each(alloc, checked, arrays.as_slice(), guard, walked)
}

// Arrays are touched, one after another.
fn touch_each(
    alloc: Global,
    checked: &Checked,
    arrays: &[u32],
    guard: &Mark,
    walked: &mut Walked,
) -> Result<(), AllocError>
    requires { length walked.old.copies.items ≡ length (infos_of checked.now) }
    ensures walked { OnOk result (state_of walked.new
        ≡ touching_all checked.now arrays.now guard.now (state_of walked.old)) }
    ensures long { OnOk result (length walked.new.copies.items ≡ length (infos_of checked.now)) }
{
    for array in arrays {
        touch(alloc, checked, *array, guard, walked)?;
    }
    Ok(())
}

// An array is touched.
fn touch(
    alloc: Global,
    checked: &Checked,
    array: u32,
    guard: &Mark,
    walked: &mut Walked,
) -> Result<(), AllocError>
    requires { length walked.old.copies.items ≡ length (infos_of checked.now) }
    ensures fields { OnOk result (walked.new.fields.items ≡ walked.old.fields.items) }
    ensures copies { OnOk result (walked.new.copies.items
        ≡ touching checked.now walked.old.fields.items guard.now walked.old.copies.items array) }
    ensures long { OnOk result (length walked.new.copies.items ≡ length (infos_of checked.now)) }
{
    if walked.copies.len() <= array as usize {
        return Ok(());
    }
    let old = take_copy(&mut walked.copies, array as usize);
    let new = touched(alloc, checked, array, guard, &walked.fields, old)?;
    put_copy(&mut walked.copies, array as usize, Some(new));
    Ok(())
}

// What is known of an array once it is touched under a guard.
fn touched(
    alloc: Global,
    checked: &Checked,
    array: u32,
    guard: &Mark,
    fields: &[Mark],
    old: Option<Copied>,
) -> Result<Copied, AllocError>
    requires { array < length (infos_of checked.now) }
    ensures { IfOk result (λ copy. copy
        ≡ touched Known (marks_of checked.now) array (indexes_in checked.now array fields.now) guard.now old) }
{
    let guard = same(alloc, guard)?;
    match old {
        Some(mut copied) => {
            copied.under.push(guard)?;
            Ok(copied)
        }
        None => {
            let mut under = Items::new(alloc);
            under.push(guard)?;
            Ok(Copied {
                index: index(alloc, checked.index(array), fields)?,
                latest: copy_of(alloc, array)?,
                under,
                stored: Items::new(alloc),
            })
        }
    }
}
