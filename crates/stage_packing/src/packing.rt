//! The one call of the pass.
ghost use Rattle.std.specs.Prelude.{◌≤◌, IfOk, length};
ghost use Rattle.dependence.specs.Reach.{AreClasses};
ghost use Rattle.dependence.specs.Uses.{Depends};
ghost use Rattle.flat_graph.specs.Nodes.{nodes};
ghost use Rattle.flat_graph.specs.Orders.{IsOrdered, as_nodes};
ghost use Rattle.flat_graph.specs.ReachedArrays.{MarksReached};
ghost use Rattle.stage_packing.specs.Depths.{AreCodelets};
ghost use Rattle.flat_graph.specs.Layouts.{IsLayout, IsLayoutOf, RunsBehind};

use crate::depths::{depths_of, stages_of};
use crate::groups::{groups_of, members_of, sets_of};
use crate::spots::spots_of;
use code_forms::{Codelets, FlatCode, Layout};
use flat_graph::{Graph, Node, Reached, reached};
use mp5_words::NoMemory;
use sqlite_items::Items;
use std::alloc::{AllocError, Global};

/// The layout of flat code with these codelets. It takes time in proportion to the code, times the groups.
pub fn pack(alloc: Global, code: &FlatCode, codelets: &Codelets) -> Result<Layout, NoMemory>
    requires { AreClasses (Depends (nodes code.now)) (length code.now.instrs) codelets.now.of }
    ensures layout { IfOk result (λ l. IsLayout code.now codelets.now.of l) }
    ensures ordered { IfOk result (λ l. RunsBehind (nodes code.now) l.spot) }
{
    let graph = Graph::of(alloc, code)?;
    let reached = reached(alloc, code)?;
    let layout = layout_of(alloc, &graph.nodes, codelets.of.as_slice(), &reached)?;
    Ok(layout)
}

// The layout of instructions with these codelets, which reach these arrays.
fn layout_of(
    alloc: Global,
    nodes: &[Node],
    classes: &[u32],
    reached: &Reached,
) -> Result<Layout, AllocError>
    requires ordered { IsOrdered (as_nodes nodes.now) }
    requires few { length nodes.now ≤ 1024 }
    requires classes { AreCodelets (as_nodes nodes.now) classes.now }
    requires reached { MarksReached (as_nodes nodes.now) reached.now.rows }
    ensures layout { IfOk result (λ l.
        IsLayoutOf (as_nodes nodes.now) classes.now l.spot l.depth l.arrays l.stages) }
    ensures ordered { IfOk result (λ l. RunsBehind (as_nodes nodes.now) l.spot) }
{
    let members = members_of(nodes);
    let groups = groups_of(nodes, reached);
    let spots = spots_of(alloc, classes, &members, &groups.of, reached)?;
    let depths = depths_of(alloc, nodes, classes, &members, &groups, &spots)?;
    let arrays = sets_of(alloc, &groups)?;
    let stages = stages_of(&depths);
    Ok(Layout {
        spot: Items::from_vec(spots),
        depth: Items::from_vec(depths),
        arrays: Items::from_vec(arrays),
        stages,
    })
}
