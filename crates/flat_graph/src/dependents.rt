//! Which arrays depend on each instruction.
ghost use Rattle.std.specs.Prelude.{IfOk};
ghost use Rattle.flat_graph.specs.Nodes.{nodes};
ghost use Rattle.flat_graph.specs.ReachedArrays.{MarksReachedFrom};

use crate::graph::Graph;
use crate::hands::{first_marks, hand_on_arrays, hand_on_others};
use crate::marks::{Reached, Row};
use crate::rows::{needed, shown};
use code_forms::FlatCode;
use dependence::close;
use mp5_words::NoMemory;
use std::alloc::{AllocError, Global};

/// For each instruction of flat code the arrays that depend on it, directly or through others. An array stands for the
/// instructions that load it, make its copies and store it. It takes time in proportion to the code, times sixteen.
pub fn reached_from(alloc: Global, code: &FlatCode) -> Result<Reached, NoMemory>
    ensures { IfOk result (λ r. MarksReachedFrom (nodes code.now) r.rows) }
{
    let rows = dependent_rows(alloc, code)?;
    Ok(Reached { rows })
}

// The marks of each instruction.
fn dependent_rows(alloc: Global, code: &FlatCode) -> Result<Vec<Row>, AllocError>
    ensures { IfOk result (λ rows. MarksReachedFrom (nodes code.now) rows.items) }
{
    let graph = Graph::of(alloc, code)?;
    let shown = shown(alloc, &graph.nodes)?;
    let mut table = needed(&graph.nodes, &shown);
    close(&mut table);
    let mut rows = first_marks(alloc, &graph.nodes, &table)?;
    hand_on_arrays(&mut rows, &graph.nodes);
    hand_on_others(&mut rows, &graph.nodes);
    Ok(rows)
}
