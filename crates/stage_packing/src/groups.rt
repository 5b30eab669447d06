//! The groups of code.
ghost use Rattle.std.specs.Prelude.{◌≡◌, ◌+◌, ◌*◌, ◌<◌, ◌≤◌, if◌then◌else◌, ℕ, Some, IfOk, is_some, length, map};
ghost use Rattle.mp5_words.specs.Cells.{bits};
ghost use Rattle.dependence.specs.Tables.{has, at};
ghost use Rattle.dependence.specs.Groups.{AreGroups};
ghost use Rattle.flat_graph.specs.Orders.{IsOrdered, as_nodes};
ghost use Rattle.flat_graph.specs.ReachedArrays.{MarksReached};
ghost use Rattle.flat_graph.specs.Layouts.{IsTouched, ArrayReaches, AreSets, is_of};
ghost use Rattle.stage_packing.specs.Members.{AreBelow, AreMembers, member_of, reaches};

use dependence::{ArrayGroups, Table, number_groups};
use flat_graph::{Node, Reached};
use std::alloc::{AllocError, Global};

/// For each of sixteen arrays an instruction that loads it, makes a copy of it or stores it; none where there is none.
pub(crate) fn members_of(nodes: &[Node]) -> [Option<u32>; 16]
    requires ordered { IsOrdered (as_nodes nodes.now) }
    requires few { length nodes.now ≤ 1024 }
    ensures { AreMembers (as_nodes nodes.now) result }
{
    let mut members = [None; 16];
    for number in 0..nodes.len() {
        note(&mut members, nodes[number].array, number as u32);
    }
    members
}

// Notes an instruction for its array.
fn note(members: &mut [Option<u32>; 16], array: Option<u32>, number: u32)
    requires { (a : ℕ) → array ≡ Some a → a < 16 }
    ensures given { (a : ℕ) → array ≡ Some a → member_of members.new a ≡ Some number }
    ensures left { (a : ℕ) → (array ≡ Some a → ⊥)
        → member_of members.new a ≡ member_of members.old a }
{
    if let Some(array) = array {
        members[array as usize] = Some(number);
    }
}

/// The groups of the arrays, by which of them their instructions reach.
pub(crate) fn groups_of(nodes: &[Node], reached: &Reached) -> ArrayGroups
    requires ordered { IsOrdered (as_nodes nodes.now) }
    requires few { length nodes.now ≤ 1024 }
    requires reached { MarksReached (as_nodes nodes.now) reached.now.rows }
    ensures groups { AreGroups (IsTouched (as_nodes nodes.now)) (ArrayReaches (as_nodes nodes.now))
        result.count result.of }
    ensures wide { length result.of ≡ 16 }
    ensures few { result.count ≤ 16 }
{
    let members = members_of(nodes);
    number_groups(&table_of(&members, reached), &touched_by(&members))
}

// Which arrays have an instruction.
fn touched_by(members: &[Option<u32>; 16]) -> [bool; 16]
    ensures { (a : ℕ) → a < 16 → has result a ≡ is_some (member_of members.now a) }
{
    let mut touched = [false; 16];
    for array in 0..16 {
        touched[array] = members[array].is_some();
    }
    touched
}

// Which arrays the instruction of each array reaches.
fn table_of(members: &[Option<u32>; 16], reached: &Reached) -> Table
    requires { AreBelow members.now (length reached.now.rows) }
    ensures { (a b : ℕ) → a < 16 → b < 16
        → at result a b ≡ reaches reached.now.rows (member_of members.now a) b }
{
    let mut table = [[false; 16]; 16];
    for array in 0..16 {
        table[array] = row_of(members[array], reached);
    }
    table
}

// Which arrays an instruction reaches.
fn row_of(member: Option<u32>, reached: &Reached) -> [bool; 16]
    requires { (m : ℕ) → member ≡ Some m → m < length reached.now.rows }
    ensures { (b : ℕ) → b < 16 → has result b ≡ reaches reached.now.rows member b }
{
    let mut row = [false; 16];
    if let Some(member) = member {
        for array in 0..16u32 {
            row[array as usize] = reached.has(member, array);
        }
    }
    row
}

/// The set of arrays of each group.
pub(crate) fn sets_of(alloc: Global, groups: &ArrayGroups) -> Result<Vec<u16>, AllocError>
    requires { length groups.now.of ≡ 16 }
    ensures long { IfOk result (λ sets. length sets.items ≡ groups.now.count) }
    ensures sets { IfOk result (λ sets. AreSets groups.now.of sets.items) }
{
    let mut sets = Vec::new(alloc);
    for group in 0..groups.count {
        sets.push(set_of(&groups.of, group))?;
    }
    Ok(sets)
}

// The arrays of a group: bit `a` for array `a`.
fn set_of(of: &[Option<u32>; 16], group: u32) -> u16
    requires { length of.now ≡ 16 }
    ensures { result ≡ bits (map (is_of group) of.now) }
{
    let mut set = 0;
    for array in (0..16).rev() {
        set = with_bit(set, of[array] == Some(group));
    }
    set
}

// The set with its bits one up, and a lowest one.
fn with_bit(set: u16, bit: bool) -> u16
    requires { set < 32768 }
    ensures { result ≡ (if bit then 1 + 2 * set else 2 * set) }
{
    set * 2 + u16::from(bit)
}
