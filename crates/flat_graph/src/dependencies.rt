//! Which arrays each instruction depends on.
ghost use Rattle.std.specs.Prelude.{IfOk};
ghost use Rattle.flat_graph.specs.Nodes.{nodes};
ghost use Rattle.flat_graph.specs.ReachedArrays.{MarksReached};

use crate::graph::Graph;
use crate::marks::{Reached, Row};
use crate::rows::{needed, shown, spread_all};
use code_forms::FlatCode;
use dependence::close;
use mp5_words::NoMemory;
use std::alloc::{AllocError, Global};

/// For each instruction of flat code the arrays that it depends on, directly or through others. An array stands for the
/// instructions that load it, make its copies and store it. It takes time in proportion to the code, times sixteen.
pub fn reached(alloc: Global, code: &FlatCode) -> Result<Reached, NoMemory>
    ensures { IfOk result (λ r. MarksReached (nodes code.now) r.rows) }
{
    let rows = reached_rows(alloc, code)?;
    Ok(Reached { rows })
}

// The marks of each instruction.
fn reached_rows(alloc: Global, code: &FlatCode) -> Result<Vec<Row>, AllocError>
    ensures { IfOk result (λ rows. MarksReached (nodes code.now) rows.items) }
{
    let graph = Graph::of(alloc, code)?;
    let mut rows = shown(alloc, &graph.nodes)?;
    let mut table = needed(&graph.nodes, &rows);
    close(&mut table);
    spread_all(&mut rows, &table);
    Ok(rows)
}
