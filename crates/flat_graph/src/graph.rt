//! Flat code as a graph.
ghost use Rattle.std.specs.Prelude.{◌≡◌, ◌≤◌, IfOk, length};
ghost use Rattle.flat_graph.specs.Nodes.{node_in, nodes};
ghost use Rattle.flat_graph.specs.Orders.{IsOrdered, HasArray, ArePlaces, as_node, as_nodes};

use crate::node::{Node, array_of, uses_of};
use crate::places::{copies_of, index_places};
use code_forms::{FlatCode, Instr};
use std::alloc::{AllocError, Global};

/// The instructions of flat code as nodes, in order. Uses are there, and those of an instruction of no array are
/// earlier than the instruction.
#[derive(Drop)]
pub struct Graph {
    pub nodes: Vec<Node>,
    pub ghost ordered: { IsOrdered (as_nodes nodes.items) },
}

impl Graph {
    /// The graph of flat code.
    pub fn of(alloc: Global, code: &FlatCode) -> Result<Graph, AllocError>
        ensures { IfOk result (λ g. as_nodes g.nodes.items ≡ nodes code.now) }
    {
        let nodes = nodes_of(alloc, code)?;
        Ok(Graph { nodes })
    }
}

// The nodes of flat code.
fn nodes_of(alloc: Global, code: &FlatCode) -> Result<Vec<Node>, AllocError>
    ensures { IfOk result (λ made. as_nodes made.items ≡ nodes code.now) }
{
    let instrs = code.instrs.as_slice();
    let places = index_places(instrs);
    let copies = copies_of(alloc, instrs.len(), code.arrays.as_slice())?;
    let mut made = Vec::with_capacity(alloc, instrs.len())?;
    for (number, instr) in instrs.iter().enumerate() {
        made.push(node(alloc, code, &places, instr, copies[number])?)?;
    }
    Ok(made)
}

// An instruction, which makes a later copy of this array.
fn node(
    alloc: Global,
    code: &FlatCode,
    places: &[u32; 16],
    instr: &Instr,
    copy: Option<u32>,
) -> Result<Node, AllocError>
    requires array { HasArray (length code.now.arrays) instr.now }
    requires few { length code.now.arrays ≤ 16 }
    requires places { ArePlaces 0 code.now.instrs places.now }
    ensures { IfOk result (λ n. as_node n ≡ node_in code.now instr.now copy) }
{
    Ok(Node {
        array: array_of(instr, copy),
        uses: uses_of(alloc, code, places, instr)?,
    })
}
