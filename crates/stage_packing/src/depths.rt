//! The depth of each codelet.
ghost use Rattle.std.specs.Prelude.{◌≡◌, ◌≢◌, ◌+◌, ◌*◌, ◌<◌, ◌≤◌, ◌⊎◌, ℕ, suc, All, Some, IfOk, OnOk, length, replicate, slice_index};
ghost use Rattle.dependence.specs.Numbering.{next_after};
ghost use Rattle.flat_graph.specs.Orders.{IsOrdered, as_nodes};
ghost use Rattle.flat_graph.specs.Layouts.{AreDepths, AreStages, class_at, part_of};
ghost use Rattle.stage_packing.specs.Members.{member_of};
ghost use Rattle.stage_packing.specs.Depths.{AreBelow, AreCodelets, Deep, HaveDepths, IsHeadOf, IsPrevious, IsOver, IsRaised, Runs};

use code_forms::Spot;
use dependence::ArrayGroups;
use flat_graph::Node;
use std::alloc::{AllocError, Global};

/// One more than the greatest depth; 0 where there is none.
pub(crate) fn stages_of(depths: &[u32]) -> u32
    requires { (c : ℕ) → slice_index depths.now c ≤ 2048 }
    ensures { AreStages depths.now result }
{
    let mut stages = 0;
    for depth in depths {
        stages = stages.max(*depth + 1);
    }
    stages
}

// How many codelets there are.
fn class_count(classes: &[u32]) -> u32
    requires { (i : ℕ) → class_at classes.now i ≤ 1024 }
    ensures { result ≡ next_after 0 classes.now }
{
    let mut count = 0;
    for class in classes {
        count = count.max(*class + 1);
    }
    count
}

// So many depths of 0.
fn zeros(alloc: Global, count: u32) -> Result<Vec<u32>, AllocError>
    ensures { IfOk result (λ depths. depths.items ≡ replicate count 0) }
{
    let mut depths = Vec::new(alloc);
    for _ in 0..count {
        depths.push(0)?;
    }
    Ok(depths)
}

// The part of the running order in which a place is: twice its block, or 1 more than twice its group.
fn part_of(spot: Spot) -> u32
    requires { part_of spot ≤ 100 }
    ensures { result ≡ part_of spot }
{
    match spot {
        Spot::Block(block) => 2 * block,
        Spot::Group(group) => 2 * group + 1,
    }
}

// An instruction that stands for an array of the group; none where there is none.
fn head_of(members: &[Option<u32>; 16], of: &[Option<u32>; 16], group: u32) -> Option<u32>
    ensures { IsHeadOf members.now of.now group result }
{
    for array in 0..16 {
        if of[array] == Some(group) && members[array].is_some() {
            return members[array];
        }
    }
    None
}

// One of the group before that of a place; none where there is none.
fn previous(members: &[Option<u32>; 16], of: &[Option<u32>; 16], spot: Spot) -> Option<u32>
    ensures { IsPrevious members.now of.now spot result }
{
    match spot {
        Spot::Group(group) => {
            if group == 0 {
                None
            } else {
                head_of(members, of, group - 1)
            }
        }
        Spot::Block(_) => None,
    }
}

// The depth of a codelet with an instruction that uses these.
fn over_uses(uses: &[u32], classes: &[u32], depths: &[u32], class: u32) -> u32
    requires there { All (λ j. j < length classes.now) uses.now }
    requires within { HaveDepths classes.now depths.now }
    requires own { class < length depths.now }
    requires small { (c : ℕ) → slice_index depths.now c ≤ 2048 }
    ensures { IsOver classes.now depths.now class uses.now result }
{
    let mut depth = depths[class as usize];
    for used in uses {
        depth = deeper(depth, depths, class, classes[*used as usize]);
    }
    depth
}

// The depth of a codelet that depends on another one too, if that is another.
fn deeper(depth: u32, depths: &[u32], class: u32, other: u32) -> u32
    requires there { other < length depths.now }
    requires small { slice_index depths.now other ≤ 2048 }
    ensures least { depth ≤ result }
    ensures above { class ≢ other → slice_index depths.now other < result }
    ensures either { (result ≡ depth)
        ⊎ ((class ≢ other) × (result ≡ suc (slice_index depths.now other))) }
{
    if other == class {
        depth
    } else {
        depth.max(depths[other as usize] + 1)
    }
}

// The depth of an instruction's codelet, where the instruction counts too.
fn raised(
    nodes: &[Node],
    classes: &[u32],
    members: &[Option<u32>; 16],
    of: &[Option<u32>; 16],
    spots: &[Spot],
    depths: &[u32],
    number: usize,
) -> u32
    requires ordered { IsOrdered (as_nodes nodes.now) }
    requires runs { Runs (as_nodes nodes.now) classes.now members.now of.now spots.now 100 }
    requires long { length classes.now ≡ length nodes.now }
    requires spots { length spots.now ≡ length nodes.now }
    requires within { HaveDepths classes.now depths.now }
    requires small { (c : ℕ) → slice_index depths.now c ≤ 2048 }
    requires number { number < length nodes.now }
    ensures { IsRaised (as_nodes nodes.now) classes.now spots.now depths.now number result }
{
    let class = classes[number];
    let depth = over_uses(nodes[number].uses.as_slice(), classes, depths, class);
    match previous(members, of, spots[number]) {
        Some(head) => depth.max(depths[classes[head as usize] as usize] + 1),
        None => depth,
    }
}

// Raises the depths of the codelets in a part.
fn deepen_part(
    nodes: &[Node],
    classes: &[u32],
    members: &[Option<u32>; 16],
    of: &[Option<u32>; 16],
    spots: &[Spot],
    part: u32,
    depths: &mut [u32],
)
    requires ordered { IsOrdered (as_nodes nodes.now) }
    requires runs { Runs (as_nodes nodes.now) classes.now members.now of.now spots.now 100 }
    requires long { length classes.now ≡ length nodes.now }
    requires spots { length spots.now ≡ length nodes.now }
    requires few { length nodes.now ≤ 1024 }
    requires within { HaveDepths classes.now depths.old }
    requires before { Deep (as_nodes nodes.now) classes.now spots.now part 0 depths.old }
    ensures long { length depths.new ≡ length depths.old }
    ensures deep { Deep (as_nodes nodes.now) classes.now spots.now (part + 1) 0 depths.new }
{
    for number in 0..nodes.len() {
        if part_of(spots[number]) == part {
            let depth = raised(nodes, classes, members, of, spots, depths, number);
            depths[classes[number] as usize] = depth;
        }
    }
}

/// The depth of each codelet: 0 where it depends on no other, else 1 more than the greatest of those. A group depends
/// on the one before it too.
pub(crate) fn depths_of(
    alloc: Global,
    nodes: &[Node],
    classes: &[u32],
    members: &[Option<u32>; 16],
    groups: &ArrayGroups,
    spots: &[Spot],
) -> Result<Vec<u32>, AllocError>
    requires ordered { IsOrdered (as_nodes nodes.now) }
    requires runs { Runs (as_nodes nodes.now) classes.now members.now groups.now.of spots.now
        (2 * groups.now.count + 1) }
    requires classes { AreCodelets (as_nodes nodes.now) classes.now }
    requires small { (i : ℕ) → class_at classes.now i ≤ 1024 }
    requires spots { length spots.now ≡ length nodes.now }
    requires few { length nodes.now ≤ 1024 }
    requires groups { groups.now.count ≤ 16 }
    ensures depths { IfOk result (λ d.
        AreDepths (as_nodes nodes.now) classes.now spots.now d.items) }
    ensures small { IfOk result (λ d. AreBelow (length nodes.now) d.items) }
{
    let mut depths = zeros(alloc, class_count(classes))?;
    for part in 0..2 * groups.count + 1 {
        deepen_part(
            nodes,
            classes,
            members,
            &groups.of,
            spots,
            part,
            &mut depths,
        );
    }
    Ok(depths)
}
