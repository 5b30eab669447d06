//! The assignments and conditions of a body in numbers, and whether one moves an index.
ghost use Rattle.std.specs.Prelude.{List, ◌≡◌, ◌≢◌, ◌++◌, ◌∷◌, [], length, map, flat_map, OnOk, IfOk, IfErr, MatchOption, Some, None, ◌<◌, false};
ghost use Rattle.std.specs.List.{list_any, slice_index_or};
ghost use Rattle.mp5_words.specs.Cells.{touching};
ghost use Rattle.domino_names.specs.declared.fault.CheckFault.TheVariants as fault;
ghost use Rattle.domino_names.specs.First.{FirstFault};
ghost use Rattle.domino_check.specs.Indexes.{array_name};
ghost use Rattle.domino_names.specs.Infos.{array_of};
ghost use Rattle.domino_check.specs.NumberedMeaning.{numbered_arrays};
ghost use Rattle.domino_check.specs.Sites.{Site, mentions, index_mentions, IndexMovesAt, NoneMoves};
ghost use Rattle.domino_check.specs.Touches.{stmt_touches, arm_touches, touches_of, joined_touches, touch_of, IsFirstMoved, NoneMoved, MovedBy};

use crate::numbered::{CheckedArm, CheckedExpr, CheckedStmt};
use domino_names::{ArrayInfo, CheckFault, copy_name};
use sqlite_items::Items;
use std::alloc::{AllocError, Global};

/// What is kept of an assignment or a condition.
#[derive(Debug, Drop)]
pub(crate) struct Touch {
    /// The arrays that it touches.
    pub arrays: Items<u32>,
    /// The field that it assigns, if it does.
    pub field: Option<u32>,
}

/// What is kept of the sites of a body goes to the end of the list.
#[cycle(push_sites)]
pub(crate) fn push_block(
    alloc: Global,
    out: &mut Vec<Touch>,
    body: &[CheckedStmt],
) -> Result<(), AllocError>
    ensures { OnOk result (out.new.items ≡ out.old.items ++ touches_of body.now) }
{
    for stmt in body {
        push_stmt(alloc, out, stmt)?;
    }
    Ok(())
}

#[cycle(push_sites)]
fn push_stmt(alloc: Global, out: &mut Vec<Touch>, stmt: &CheckedStmt) -> Result<(), AllocError>
    ensures { OnOk result (out.new.items ≡ out.old.items ++ stmt_touches stmt.now) }
{
    match stmt {
        CheckedStmt::SetField(field, expr) => push_field(alloc, out, *field, expr),
        CheckedStmt::SetCell(array, expr) => push_cell(alloc, out, *array, expr),
        CheckedStmt::If(arms, None) => push_arms(alloc, out, arms.as_slice()),
        CheckedStmt::If(arms, Some(body)) => {
            push_arms(alloc, out, arms.as_slice())?;
            push_block(alloc, out, body.as_slice())
        }
    }
}

#[cycle(push_sites)]
fn push_arms(alloc: Global, out: &mut Vec<Touch>, arms: &[CheckedArm]) -> Result<(), AllocError>
    ensures { OnOk result
        (out.new.items ≡ out.old.items ++ joined_touches (map arm_touches arms.now)) }
{
    for arm in arms {
        push_arm(alloc, out, arm)?;
    }
    Ok(())
}

// The condition, and then the block.
#[cycle(push_sites)]
fn push_arm(alloc: Global, out: &mut Vec<Touch>, arm: &CheckedArm) -> Result<(), AllocError>
    ensures { OnOk result (out.new.items ≡ out.old.items ++ arm_touches arm.now) }
{
    push_cond(alloc, out, &arm.cond)?;
    push_block(alloc, out, arm.body.as_slice())
}

fn push_field(
    alloc: Global,
    out: &mut Vec<Touch>,
    field: u32,
    expr: &CheckedExpr,
) -> Result<(), AllocError>
    ensures { OnOk result
        (out.new.items ≡ out.old.items
        ++ (record { arrays = numbered_arrays expr.now; field = Some field } ∷ [])) }
{
    let mut read = Items::new(alloc);
    push_arrays(&mut read, expr)?;
    out.push(Touch {
        arrays: read,
        field: Some(field),
    })?;
    Ok(())
}

fn push_cell(
    alloc: Global,
    out: &mut Vec<Touch>,
    array: u32,
    expr: &CheckedExpr,
) -> Result<(), AllocError>
    ensures { OnOk result
        (out.new.items ≡ out.old.items
        ++ (record { arrays = array ∷ numbered_arrays expr.now; field = None } ∷ [])) }
{
    let mut arrays = Items::new(alloc);
    arrays.push(array)?;
    push_arrays(&mut arrays, expr)?;
    out.push(Touch {
        arrays,
        field: None,
    })?;
    Ok(())
}

fn push_cond(alloc: Global, out: &mut Vec<Touch>, cond: &CheckedExpr) -> Result<(), AllocError>
    ensures { OnOk result
        (out.new.items ≡ out.old.items
        ++ (record { arrays = numbered_arrays cond.now; field = None } ∷ [])) }
{
    let mut arrays = Items::new(alloc);
    push_arrays(&mut arrays, cond)?;
    out.push(Touch {
        arrays,
        field: None,
    })?;
    Ok(())
}

// The arrays that stand in an expression go to the end of the list.
#[cycle(push_arrays)]
fn push_arrays(out: &mut Items<u32>, expr: &CheckedExpr) -> Result<(), AllocError>
    ensures { OnOk result (out.new ≡ out.old ++ numbered_arrays expr.now) }
{
    match expr {
        CheckedExpr::Number(_) | CheckedExpr::Field(_) => Ok(()),
        CheckedExpr::Cell(array) => out.push(*array),
        CheckedExpr::One(_, a) => push_arrays(out, a.get()),
        CheckedExpr::Two(_, a, b) => {
            push_arrays(out, a.get())?;
            push_arrays(out, b.get())
        }
        CheckedExpr::Pick(cond, a, b) => {
            push_arrays(out, cond.get())?;
            push_arrays(out, a.get())?;
            push_arrays(out, b.get())
        }
        CheckedExpr::Hash(_, args) => push_all_arrays(out, args.as_slice()),
    }
}

#[cycle(push_arrays)]
fn push_all_arrays(out: &mut Items<u32>, args: &[CheckedExpr]) -> Result<(), AllocError>
    ensures { OnOk result
        (out.new ≡ out.old ++ flat_map (λ arrays. arrays) (map numbered_arrays args.now)) }
{
    for arg in args {
        push_arrays(out, arg)?;
    }
    Ok(())
}

/// Refuses where a field of an array's index is assigned at or behind the first site that touches the array.
/// The first such assignment is told, by the array that is declared first.
pub(crate) fn check_sites(
    alloc: Global,
    arrays: &[ArrayInfo],
    indexes: &[Option<CheckedExpr>],
    sites: &[Touch],
) -> Result<(), CheckFault>
    requires { length indexes.now ≡ length arrays.now }
    ensures passes { OnOk result
        ((all : List Site) → map touch_of all ≡ sites.now → NoneMoves indexes.now all) }
    ensures refuses { IfErr result
        (λ f. f ≢ fault.NoMemory → (all : List Site) → map touch_of all ≡ sites.now
        → FirstFault (IndexMovesAt (map array_of arrays.now) indexes.now) all f) }
{
    let mut marks = vec![in alloc; false; indexes.len()]?;
    let touched = marks.as_mut_slice();
    for site in sites {
        mark_all(touched, site.arrays.as_slice());
        if let Some(array) = moved_by(touched, indexes, site.field) {
            return Err(moves(alloc, arrays, array));
        }
    }
    Ok(())
}

// These arrays are touched.
fn mark_all(touched: &mut [bool], arrays: &[u32])
    ensures { touched.new ≡ touching arrays.now touched.old }
{
    for array in arrays {
        mark(touched, *array as usize);
    }
}

// Past the end nothing is marked.
fn mark(touched: &mut [bool], array: usize)
    ensures { touched.new ≡ touching (array ∷ []) touched.old }
{
    if array < touched.len() {
        touched[array] = true;
    }
}

// The first array that a site moves, where it assigns a field.
fn moved_by(touched: &[bool], indexes: &[Option<CheckedExpr>], field: Option<u32>) -> Option<usize>
    ensures { MovedBy touched.now indexes.now field result }
{
    match field {
        Some(field) => first_moved(touched, indexes, field),
        None => None,
    }
}

// The first array that is touched and in whose index the field stands.
fn first_moved(touched: &[bool], indexes: &[Option<CheckedExpr>], field: u32) -> Option<usize>
    ensures { MatchOption result (NoneMoved touched.now indexes.now field)
        (λ array. IsFirstMoved touched.now indexes.now field array) }
{
    for (array, index) in indexes.iter().enumerate() {
        if is_touched(touched, array) && index_mentions(index, field) {
            return Some(array);
        }
    }
    None
}

// Whether the array is touched.
fn is_touched(touched: &[bool], array: usize) -> bool
    ensures { result ≡ slice_index_or touched.now array false }
{
    touched.get(array).copied().unwrap_or(false)
}

// Whether the field stands in an index, where there is one.
fn index_mentions(index: &Option<CheckedExpr>, field: u32) -> bool
    ensures { result ≡ index_mentions field index.now }
{
    match index {
        Some(index) => mentions(index, field),
        None => false,
    }
}

// Whether the field stands in an expression.
#[cycle(mentions)]
fn mentions(expr: &CheckedExpr, field: u32) -> bool
    ensures { result ≡ mentions field expr.now }
{
    match expr {
        CheckedExpr::Number(_) | CheckedExpr::Cell(_) => false,
        CheckedExpr::Field(other) => *other == field,
        CheckedExpr::One(_, a) => mentions(a.get(), field),
        CheckedExpr::Two(_, a, b) => mentions(a.get(), field) || mentions(b.get(), field),
        CheckedExpr::Pick(cond, a, b) => {
            mentions(cond.get(), field) || (mentions(a.get(), field) || mentions(b.get(), field))
        }
        CheckedExpr::Hash(_, args) => any_mentions(args.as_slice(), field),
    }
}

#[cycle(mentions)]
fn any_mentions(args: &[CheckedExpr], field: u32) -> bool
    ensures { result ≡ list_any (λ mentioned. mentioned) (map (mentions field) args.now) }
{
    for arg in args {
        if mentions(arg, field) {
            return true;
        }
    }
    false
}

// The fault that names the array.
fn moves(alloc: Global, arrays: &[ArrayInfo], array: usize) -> CheckFault
    requires { array < length arrays.now }
    ensures { result ≢ fault.NoMemory
        → result ≡ fault.IndexMoves (array_name (map array_of arrays.now) array) }
{
    match copy_name(alloc, &arrays[array].name) {
        Ok(name) => CheckFault::IndexMoves(name),
        Err(error) => error.into(),
    }
}
