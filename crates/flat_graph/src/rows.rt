//! For each instruction sixteen marks, one for each array that may be there.
ghost use Rattle.std.specs.Prelude.{◌≡◌, ◌==◌, ◌<◌, ◌||◌, ◌&&◌, ℕ, All, Some, None, IfOk, length};
ghost use Rattle.dependence.specs.Tables.{has, at};
ghost use Rattle.flat_graph.specs.Orders.{IsOrdered, as_node, as_nodes};
ghost use Rattle.flat_graph.specs.Passes.{any_has, shown_by, Shows, needs_by, IsNeeded, spread_to, Spreads};

use crate::marks::Row;
use crate::node::Node;
use dependence::{Table, unite};
use std::alloc::{AllocError, Global};

/// For each instruction the arrays that it shows: its own alone, else all that those which it uses show.
pub(crate) fn shown(alloc: Global, nodes: &[Node]) -> Result<Vec<Row>, AllocError>
    requires { IsOrdered (as_nodes nodes.now) }
    ensures { IfOk result (λ rows. Shows (as_nodes nodes.now) rows.items) }
{
    let mut rows = Vec::with_capacity(alloc, nodes.len())?;
    for node in nodes {
        let row = show(&rows, node);
        rows.push(row)?;
    }
    Ok(rows)
}

// The arrays that an instruction shows.
fn show(rows: &[Row], node: &Node) -> Row
    requires array { (a : ℕ) → node.now.array ≡ Some a → a < 16 }
    requires uses { node.now.array ≡ None → All (λ j. j < length rows.now) node.now.uses }
    ensures { (b : ℕ) → b < 16 → has result b ≡ shown_by rows.now (as_node node.now) b }
{
    match node.array {
        Some(array) => alone(array),
        None => gather(rows, node.uses.as_slice()),
    }
}

// A mark at one array alone.
fn alone(array: u32) -> Row
    requires { array < 16 }
    ensures { (b : ℕ) → b < 16 → has result b ≡ (array == b) }
{
    let mut row = [false; 16];
    row[array as usize] = true;
    row
}

// The marks of all these instructions.
fn gather(rows: &[Row], numbers: &[u32]) -> Row
    requires { All (λ j. j < length rows.now) numbers.now }
    ensures { (b : ℕ) → b < 16 → has result b ≡ any_has rows.now numbers.now b }
{
    let mut row = [false; 16];
    for number in numbers {
        unite(&mut row, &rows[*number as usize]);
    }
    row
}

/// Which array needs which: an instruction of the one uses one that shows the other.
pub(crate) fn needed(nodes: &[Node], rows: &[Row]) -> Table
    requires ordered { IsOrdered (as_nodes nodes.now) }
    requires long { length rows.now ≡ length nodes.now }
    ensures { IsNeeded (as_nodes nodes.now) rows.now result }
{
    let mut table = [[false; 16]; 16];
    for node in nodes {
        need(&mut table, node, rows);
    }
    table
}

// Marks what an instruction needs, for its array.
fn need(table: &mut Table, node: &Node, rows: &[Row])
    requires array { (a : ℕ) → node.now.array ≡ Some a → a < 16 }
    requires uses { All (λ j. j < length rows.now) node.now.uses }
    ensures { (a b : ℕ) → a < 16 → b < 16
        → at table.new a b ≡ (at table.old a b || needs_by rows.now a b (as_node node.now)) }
{
    if let Some(array) = node.array {
        let row = gather(rows, node.uses.as_slice());
        unite(&mut table[array as usize], &row);
    }
}

/// Marks in each row what is reached from the arrays that it marks.
pub(crate) fn spread_all(rows: &mut [Row], table: &Table)
    ensures { Spreads table.now rows.old rows.new }
{
    for row in rows.iter_mut() {
        *row = spread(row, table);
    }
}

// What is reached from the arrays that are marked.
fn spread(marks: &Row, table: &Table) -> Row
    ensures { (b : ℕ) → b < 16 → has result b ≡ spread_to marks.now table.now 16 b }
{
    let mut row = [false; 16];
    for array in 0..16 {
        pass(&mut row, array, marks[array], &table[array]);
    }
    row
}

// Marks the array and what it reaches, where it is marked.
fn pass(row: &mut Row, array: usize, is_marked: bool, reached: &Row)
    requires { array < 16 }
    ensures { (b : ℕ) → b < 16
        → has row.new b ≡ (has row.old b || (is_marked && ((array == b) || has reached.now b))) }
{
    if is_marked {
        row[array] = true;
        unite(row, reached);
    }
}
