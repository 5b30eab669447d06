//! The order in which the instructions run.
ghost use Rattle.std.specs.Prelude.{◌≡◌, ◌≤◌, ◌++◌, ◌==◌, ◌&&◌, IfOk, OnOk, length};
ghost use Rattle.flat_graph.specs.Layouts.{spot_at, part_of};
ghost use Rattle.code_forms.specs.FlatValid.{writes};
ghost use Rattle.index_resolve.specs.Order.{part_at, is_kind, is_in, chosen, part_order, running, part_ends};

use code_forms::{Instr, Spot};
use sqlite_items::Items;
use std::alloc::{AllocError, Global};

/// The numbers of the instructions in running order, and for each part how many have run at its end.
#[derive(Drop)]
pub(crate) struct Order {
    pub numbers: Vec<u32>,
    pub ends: Vec<u32>,
}

/// The order of so many parts.
pub(crate) fn order_of(
    alloc: Global,
    spots: &[Spot],
    instrs: &[Instr],
    parts: u32,
) -> Result<Order, AllocError>
    requires few { length instrs.now ≤ 1024 }
    requires parts { parts ≤ 33 }
    ensures numbers { IfOk result (λ o. o.numbers.items ≡ running spots.now instrs.now parts) }
    ensures ends { IfOk result (λ o. o.ends.items ≡ part_ends spots.now instrs.now parts) }
{
    let mut numbers = Vec::with_capacity(alloc, instrs.len())?;
    let mut ends = Vec::with_capacity(alloc, parts as usize)?;
    for part in 0..parts {
        push_part(&mut numbers, spots, instrs, part)?;
        ends.push(numbers.len() as u32)?;
    }
    Ok(Order { numbers, ends })
}

// Adds the instructions of a part, the Stores behind all others.
fn push_part(
    numbers: &mut Vec<u32>,
    spots: &[Spot],
    instrs: &[Instr],
    part: u32,
) -> Result<(), AllocError>
    requires { length instrs.now ≤ 1024 }
    ensures { OnOk result (numbers.new.items
        ≡ numbers.old.items ++ part_order spots.now instrs.now part) }
{
    push_kind(numbers, spots, instrs, part, false)?;
    push_kind(numbers, spots, instrs, part, true)
}

// Adds those that are Stores, or those that are none.
fn push_kind(
    numbers: &mut Vec<u32>,
    spots: &[Spot],
    instrs: &[Instr],
    part: u32,
    stores: bool,
) -> Result<(), AllocError>
    requires { length instrs.now ≤ 1024 }
    ensures { OnOk result (numbers.new.items ≡ numbers.old.items
        ++ chosen (is_in spots.now instrs.now part stores) (length instrs.now)) }
{
    for number in 0..instrs.len() {
        if part_at(spots, number) == u64::from(part) && is_kind(stores, instrs[number]) {
            numbers.push(number as u32)?;
        }
    }
    Ok(())
}

// The part in which an instruction runs.
fn part_at(spots: &[Spot], number: usize) -> u64
    ensures { result ≡ part_at spots.now number }
{
    part_of(spots.get(number).copied().unwrap_or(Spot::Block(0)))
}

// The part of a place: block 0, group 0, block 1, group 1 and so on.
fn part_of(spot: Spot) -> u64
    ensures { result ≡ part_of spot }
{
    match spot {
        Spot::Block(b) => u64::from(b) + u64::from(b),
        Spot::Group(g) => u64::from(g) + u64::from(g) + 1,
    }
}

// Whether an instruction is a Store, or is none.
fn is_kind(stores: bool, instr: Instr) -> bool
    ensures { result ≡ is_kind stores instr }
{
    matches!(instr, Instr::Store(_, _)) == stores
}
