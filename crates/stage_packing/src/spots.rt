//! Where each instruction runs.
ghost use Rattle.std.specs.Prelude.{◌≡◌, ◌<◌, ◌≤◌, ◌+◌, ◌↔◌, ℕ, Some, IfOk, IsTrue, length};
ghost use Rattle.dependence.specs.Groups.{group_of};
ghost use Rattle.flat_graph.specs.Layouts.{class_at, spot_at};
ghost use Rattle.stage_packing.specs.Members.{AreBelow};
ghost use Rattle.stage_packing.specs.Spots.{IsGroupOf, IsBlockBy, IsSpotBy, block_behind};

use code_forms::Spot;
use flat_graph::Reached;
use std::alloc::{AllocError, Global};

/// The place of each instruction, where these are the codelets, an instruction of each array, and the arrays' groups.
pub(crate) fn spots_of(
    alloc: Global,
    classes: &[u32],
    members: &[Option<u32>; 16],
    of: &[Option<u32>; 16],
    reached: &Reached,
) -> Result<Vec<Spot>, AllocError>
    requires members { AreBelow members.now (length classes.now) }
    requires few { (a g : ℕ) → a < 16 → group_of of.now a ≡ Some g → g < 16 }
    requires long { length reached.now.rows ≡ length classes.now }
    requires bound { length classes.now ≤ 1024 }
    ensures long { IfOk result (λ spots. length spots.items ≡ length classes.now) }
    ensures spots { IfOk result (λ spots. (i : ℕ) → i < length classes.now
        → IsSpotBy classes.now members.now reached.now.rows of.now i (spot_at spots.items i)) }
{
    let mut spots = Vec::with_capacity(alloc, classes.len())?;
    for number in 0..classes.len() {
        spots.push(spot_of(classes, members, of, reached, number))?;
    }
    Ok(spots)
}

// The place of an instruction: its codelet's group, or else its block.
fn spot_of(
    classes: &[u32],
    members: &[Option<u32>; 16],
    of: &[Option<u32>; 16],
    reached: &Reached,
    number: usize,
) -> Spot
    requires members { AreBelow members.now (length classes.now) }
    requires few { (a g : ℕ) → a < 16 → group_of of.now a ≡ Some g → g < 16 }
    requires number { number < length classes.now }
    requires long { length reached.now.rows ≡ length classes.now }
    requires bound { length classes.now ≤ 1024 }
    ensures { IsSpotBy classes.now members.now reached.now.rows of.now number result }
{
    match group_at(classes, members, of, classes[number]) {
        Some(group) => Spot::Group(group),
        None => Spot::Block(block_at(reached, of, number as u32)),
    }
}

// The group of a codelet; none where no array's instruction is of it.
fn group_at(
    classes: &[u32],
    members: &[Option<u32>; 16],
    of: &[Option<u32>; 16],
    class: u32,
) -> Option<u32>
    requires { AreBelow members.now (length classes.now) }
    ensures { IsGroupOf classes.now members.now of.now class result }
{
    for array in 0..16 {
        if has_member(classes, members[array], class) && of[array].is_some() {
            return of[array];
        }
    }
    None
}

// Whether an array's instruction is of the codelet.
fn has_member(classes: &[u32], member: Option<u32>, class: u32) -> bool
    requires { (m : ℕ) → member ≡ Some m → m < length classes.now }
    ensures { IsTrue result ↔ ((m : ℕ) × (member ≡ Some m) × (class_at classes.now m ≡ class)) }
{
    match member {
        Some(member) => classes[member as usize] == class,
        None => false,
    }
}

// One more than the greatest number of a group that an instruction reaches; 0 where it reaches none.
fn block_at(reached: &Reached, of: &[Option<u32>; 16], number: u32) -> u32
    requires number { number < length reached.now.rows }
    requires few { (a g : ℕ) → a < 16 → group_of of.now a ≡ Some g → g < 16 }
    ensures { IsBlockBy reached.now.rows of.now number result }
{
    let mut block = 0;
    for array in 0..16u32 {
        if reached.has(number, array) {
            block = block.max(behind(of[array as usize]));
        }
    }
    block
}

// The block behind a group; block 0 behind none.
fn behind(group: Option<u32>) -> u32
    requires { (g : ℕ) → group ≡ Some g → g < 16 }
    ensures { result ≡ block_behind group }
{
    match group {
        Some(group) => group + 1,
        None => 0,
    }
}
