//! The execution of statements in numbers.
ghost use Rattle.std.specs.Prelude.{◌≡◌, slice_set};
ghost use Rattle.mp5_words.specs.Cells.{cell_set, touching};
ghost use Rattle.domino_check.specs.NumberedMeaning.{indexing, numbered_value, numbered_arrays, set_field, set_cell, numbered_step, numbered_choice, numbered_exec};
ghost use Rattle.domino_eval.specs.Parts.{store, state, entered};
ghost use Rattle.domino_eval.specs.Places.{marks, ArePlaces, BodyStays, StmtStays, ArmStays, FieldStays};

use crate::value::{put, touch, value};
use domino_check::{Checked, CheckedArm, CheckedExpr, CheckedStmt};
use sqlite_items::Items;

/// Executes the statements in text order.
#[cycle(statement)]
#[tactic(auto, using(crate::proofs::PlaceLemmas::moving))]
pub(crate) fn run_block(
    checked: &Checked,
    body: &[CheckedStmt],
    fields: &mut [i32],
    cells: &mut [Items<i32>],
    places: &mut [Option<u32>],
)
    requires places { ArePlaces (indexing checked.now) fields.old places.old }
    requires still { BodyStays (indexing checked.now) (marks places.old) body.now }
    ensures state { state fields.new cells.new (marks places.new)
        ≡ numbered_exec (indexing checked.now) body.now
        (state fields.old cells.old (marks places.old)) }
    ensures places { ArePlaces (indexing checked.now) fields.new places.new }
{
    for stmt in body {
        run_stmt(checked, stmt, fields, cells, places);
    }
}

// Executes one statement. Of a chain, the conditions are evaluated up to the first that holds, and its block is
// executed; the last block where none holds.
#[cycle(statement)]
#[tactic(auto, using(crate::proofs::PlaceLemmas::moving))]
fn run_stmt(
    checked: &Checked,
    stmt: &CheckedStmt,
    fields: &mut [i32],
    cells: &mut [Items<i32>],
    places: &mut [Option<u32>],
)
    requires places { ArePlaces (indexing checked.now) fields.old places.old }
    requires still { StmtStays (indexing checked.now) (marks places.old) stmt.now }
    ensures state { state fields.new cells.new (marks places.new)
        ≡ numbered_step (indexing checked.now) stmt.now
        (state fields.old cells.old (marks places.old)) }
    ensures places { ArePlaces (indexing checked.now) fields.new places.new }
{
    match stmt {
        CheckedStmt::SetField(field, expr) => {
            set_field(checked, *field, expr, fields, cells, places);
        }
        CheckedStmt::SetCell(array, expr) => {
            set_cell(checked, *array, expr, fields, cells, places);
        }
        CheckedStmt::If(arms, last) => {
            let list = arms.as_slice();
            for arm in list {
                if run_arm(checked, arm, fields, cells, places) {
                    return;
                }
            }
            if let Some(body) = last {
                run_block(checked, body.as_slice(), fields, cells, places);
            }
        }
    }
}

// Evaluates the condition, and executes the block where it holds. Says whether it held.
#[cycle(statement)]
#[tactic(auto, using(crate::proofs::PlaceLemmas::moving))]
fn run_arm(
    checked: &Checked,
    arm: &CheckedArm,
    fields: &mut [i32],
    cells: &mut [Items<i32>],
    places: &mut [Option<u32>],
) -> bool
    requires places { ArePlaces (indexing checked.now) fields.old places.old }
    requires still { ArmStays (indexing checked.now) (marks places.old) arm.now }
    ensures holds { result
        ≡ (numbered_choice (indexing checked.now) arm.now).holds (store fields.old cells.old) }
    ensures state { state fields.new cells.new (marks places.new)
        ≡ entered result (numbered_choice (indexing checked.now) arm.now)
        (state fields.old cells.old (marks places.old)) }
    ensures places { ArePlaces (indexing checked.now) fields.new places.new }
{
    if condition(checked, arm, fields, cells, places) == 0 {
        return false;
    }
    run_block(checked, arm.body.as_slice(), fields, cells, places);
    true
}

// The value of an arm's condition, from which its block goes on.
fn condition(
    checked: &Checked,
    arm: &CheckedArm,
    fields: &[i32],
    cells: &[Items<i32>],
    places: &mut [Option<u32>],
) -> i32
    requires places { ArePlaces (indexing checked.now) fields.now places.old }
    requires still { ArmStays (indexing checked.now) (marks places.old) arm.now }
    ensures value { result
        ≡ numbered_value (indexing checked.now) arm.now.cond (store fields.now cells.now) }
    ensures touched { marks places.new
        ≡ touching (numbered_arrays arm.now.cond) (marks places.old) }
    ensures kept { ArePlaces (indexing checked.now) fields.now places.new }
    ensures still { BodyStays (indexing checked.now) (marks places.new) arm.now.body }
{
    value(checked, &arm.cond, fields, cells, places)
}

// An assignment to a field.
fn set_field(
    checked: &Checked,
    field: u32,
    expr: &CheckedExpr,
    fields: &mut [i32],
    cells: &[Items<i32>],
    places: &mut [Option<u32>],
)
    requires places { ArePlaces (indexing checked.now) fields.old places.old }
    requires still { FieldStays (indexing checked.now) (marks places.old) field expr.now }
    ensures state { state fields.new cells.now (marks places.new)
        ≡ set_field (indexing checked.now) field expr.now
        (state fields.old cells.now (marks places.old)) }
    ensures places { ArePlaces (indexing checked.now) fields.new places.new }
{
    let word = value(checked, expr, fields, cells, places);
    put(fields, field as usize, word);
}

// An assignment to the cell of an array that its index names.
fn set_cell(
    checked: &Checked,
    array: u32,
    expr: &CheckedExpr,
    fields: &[i32],
    cells: &mut [Items<i32>],
    places: &mut [Option<u32>],
)
    requires places { ArePlaces (indexing checked.now) fields.now places.old }
    ensures state { state fields.now cells.new (marks places.new)
        ≡ set_cell (indexing checked.now) array expr.now
        (state fields.now cells.old (marks places.old)) }
    ensures places { ArePlaces (indexing checked.now) fields.now places.new }
{
    let place = touch(checked, array, fields, places);
    let word = value(checked, expr, fields, cells, places);
    put_cell(cells, array as usize, place, word);
}

// Writes a word to a cell. Past them all nothing is written.
fn put_cell(cells: &mut [Items<i32>], array: usize, place: usize, word: i32)
    ensures { cells.new ≡ cell_set cells.old array place word }
{
    if array < cells.len() {
        let row = &mut cells[array];
        if place < row.len() {
            row.set(place, word);
        }
    }
}
