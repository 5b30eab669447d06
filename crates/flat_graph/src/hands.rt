//! Marks that each instruction hands on to those that it uses.
ghost use Rattle.std.specs.Prelude.{◌≡◌, ◌==◌, ◌<◌, ◌||◌, ◌&&◌, ℕ, All, Some, IfOk, length};
ghost use Rattle.std.specs.List.{list_any};
ghost use Rattle.flat_graph.specs.ReachedArrays.{row};
ghost use Rattle.dependence.specs.Tables.{has, at};
ghost use Rattle.flat_graph.specs.Orders.{IsOrdered, as_nodes};
ghost use Rattle.flat_graph.specs.Passes.{starts_at, Begins, HandsOn, Grows, HandedBelow, SettledFrom};

use crate::marks::Row;
use crate::node::Node;
use dependence::{Table, unite};
use std::alloc::{AllocError, Global};

/// The first marks: those of an instruction of an array are the arrays that reach its array.
pub(crate) fn first_marks(
    alloc: Global,
    nodes: &[Node],
    table: &Table,
) -> Result<Vec<Row>, AllocError>
    requires { IsOrdered (as_nodes nodes.now) }
    ensures { IfOk result (λ rows. Begins (as_nodes nodes.now) table.now rows.items) }
{
    let mut rows = Vec::with_capacity(alloc, nodes.len())?;
    for node in nodes {
        rows.push(start(node.array, table))?;
    }
    Ok(rows)
}

// The first marks of an instruction of this array.
fn start(array: Option<u32>, table: &Table) -> Row
    requires { (a : ℕ) → array ≡ Some a → a < 16 }
    ensures { (b : ℕ) → b < 16 → has result b ≡ starts_at table.now array b }
{
    match array {
        Some(array) => column(table, array as usize),
        None => [false; 16],
    }
}

// The array itself and those that reach it.
fn column(table: &Table, array: usize) -> Row
    requires { array < 16 }
    ensures { (b : ℕ) → b < 16 → has result b ≡ ((b == array) || at table.now b array) }
{
    let mut row = [false; 16];
    for other in 0..16 {
        row[other] = table[other][array];
    }
    row[array] = true;
    row
}

/// Each instruction of an array hands its marks on.
pub(crate) fn hand_on_arrays(rows: &mut [Row], nodes: &[Node])
    requires ordered { IsOrdered (as_nodes nodes.now) }
    requires long { length rows.old ≡ length nodes.now }
    ensures grows { Grows (as_nodes nodes.now) rows.old rows.new }
    ensures handed { HandedBelow (length nodes.now) (as_nodes nodes.now) rows.old rows.new }
{
    for number in 0..nodes.len() {
        let node = &nodes[number];
        hand_on(rows, number, node, node.array.is_some());
    }
}

/// Each instruction of no array hands its marks on, the last one first.
pub(crate) fn hand_on_others(rows: &mut [Row], nodes: &[Node])
    requires ordered { IsOrdered (as_nodes nodes.now) }
    requires long { length rows.old ≡ length nodes.now }
    ensures grows { Grows (as_nodes nodes.now) rows.old rows.new }
    ensures settled { SettledFrom 0 (as_nodes nodes.now) rows.new }
{
    for number in (0..nodes.len()).rev() {
        let node = &nodes[number];
        hand_on(rows, number, node, node.array.is_none());
    }
}

// Where it does, hands an instruction's marks on.
fn hand_on(rows: &mut [Row], number: usize, node: &Node, does: bool)
    requires number { number < length rows.old }
    requires uses { All (λ j. j < length rows.old) node.now.uses }
    ensures long { length rows.new ≡ length rows.old }
    ensures marks { HandsOn does number node.now.uses rows.old rows.new }
{
    if does {
        let marks = rows[number];
        scatter(rows, node.uses.as_slice(), &marks);
    }
}

// Adds the marks to each of these rows.
fn scatter(rows: &mut [Row], numbers: &[u32], marks: &Row)
    requires { All (λ j. j < length rows.old) numbers.now }
    ensures long { length rows.new ≡ length rows.old }
    ensures marks { (j b : ℕ) → j < length rows.old → b < 16 → has (row rows.new j) b
        ≡ (has (row rows.old j) b || (list_any (λ n. j == n) numbers.now && has marks.now b)) }
{
    for number in numbers {
        unite(&mut rows[*number as usize], marks);
    }
}
