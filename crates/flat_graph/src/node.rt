//! An instruction as a node of the graph.
ghost use Rattle.std.specs.Prelude.{◌≡◌, ◌++◌, ◌≤◌, IfOk, OnOk, length};
ghost use Rattle.flat_graph.specs.Nodes.{owner, writer, writers, taken_by, index_used, uses_in};
ghost use Rattle.flat_graph.specs.Orders.{HasArray, ArePlaces};

use code_forms::{FlatCode, Instr, Operand};
use sqlite_items::Items;
use std::alloc::{AllocError, Global};

/// An instruction as a node.
#[derive(Drop)]
pub struct Node {
    /// The array whose copy it loads, makes or stores.
    pub array: Option<u32>,
    /// The numbers of the instructions that it uses.
    pub uses: Items<u32>,
}

/// The array that the instruction loads or stores, else that of the copy that it makes.
pub(crate) fn array_of(instr: &Instr, copy: Option<u32>) -> Option<u32>
    ensures { result ≡ owner instr.now copy }
{
    match instr {
        Instr::Load(array) | Instr::Store(array, _) => Some(*array),
        _ => copy,
    }
}

/// The instructions that an instruction uses, given the place of each array's Index.
pub(crate) fn uses_of(
    alloc: Global,
    code: &FlatCode,
    places: &[u32; 16],
    instr: &Instr,
) -> Result<Items<u32>, AllocError>
    requires array { HasArray (length code.now.arrays) instr.now }
    requires few { length code.now.arrays ≤ 16 }
    requires places { ArePlaces 0 code.now.instrs places.now }
    ensures { IfOk result (λ uses. uses ≡ uses_in code.now instr.now) }
{
    let mut uses = Vec::new(alloc);
    push_index(&mut uses, code, places, instr)?;
    push_taken(&mut uses, code, instr)?;
    Ok(Items::from_vec(uses))
}

// Adds the Index of a Load or a Store.
fn push_index(
    uses: &mut Vec<u32>,
    code: &FlatCode,
    places: &[u32; 16],
    instr: &Instr,
) -> Result<(), AllocError>
    requires array { HasArray (length code.now.arrays) instr.now }
    requires few { length code.now.arrays ≤ 16 }
    requires places { ArePlaces 0 code.now.instrs places.now }
    ensures { OnOk result (uses.new.items
        ≡ uses.old.items ++ index_used code.now.instrs instr.now) }
{
    match instr {
        Instr::Load(array) | Instr::Store(array, _) => Ok(uses.push(places[*array as usize])?),
        _ => Ok(()),
    }
}

// Adds the instructions that write what an instruction takes.
fn push_taken(uses: &mut Vec<u32>, code: &FlatCode, instr: &Instr) -> Result<(), AllocError>
    requires { HasArray (length code.now.arrays) instr.now }
    ensures { OnOk result (uses.new.items
        ≡ uses.old.items ++ writers code.now.fields (taken_by code.now.arrays instr.now)) }
{
    let fields = code.fields;
    match instr {
        Instr::One(_, a) | Instr::Move(a) | Instr::Index(_, a) => {
            push_writers(uses, fields, &[*a])
        }
        Instr::Two(_, a, b) | Instr::Yes(a, b) | Instr::No(a, b) => {
            push_writers(uses, fields, &[*a, *b])
        }
        Instr::Pick(a, b, c) | Instr::Hash(_, a, b, c) => {
            push_writers(uses, fields, &[*a, *b, *c])
        }
        Instr::Load(_) => Ok(()),
        Instr::Store(array, a) => {
            push_writer(uses, fields, a)?;
            let array = &code.arrays.as_slice()[*array as usize];
            push_writers(uses, fields, array.touched.as_slice())
        }
    }
}

// Adds the instructions that write the operands' slots.
fn push_writers(uses: &mut Vec<u32>, fields: u32, operands: &[Operand]) -> Result<(), AllocError>
    ensures { OnOk result (uses.new.items ≡ uses.old.items ++ writers fields operands.now) }
{
    for operand in operands {
        push_writer(uses, fields, operand)?;
    }
    Ok(())
}

// Adds the instruction that writes the operand's slot, where it is one.
fn push_writer(uses: &mut Vec<u32>, fields: u32, operand: &Operand) -> Result<(), AllocError>
    ensures { OnOk result (uses.new.items ≡ uses.old.items ++ writer fields operand.now) }
{
    let Operand::Slot(slot) = *operand else {
        return Ok(());
    };
    if slot < fields {
        return Ok(());
    }
    uses.push(slot - fields)?;
    Ok(())
}
