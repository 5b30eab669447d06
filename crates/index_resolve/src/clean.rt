//! Which values are clean: no copy of an array is behind them, so a header alone tells them.
ghost use Rattle.std.specs.Prelude.{◌≡◌, Bool, IfOk};
ghost use Rattle.code_forms.specs.FlatMeaning.{Slots, instr_value, step_value};
ghost use Rattle.flat_graph.specs.Nodes.{owner};
ghost use Rattle.index_resolve.specs.Clean.{cleans, clean_slots, IsCleanStep};
ghost use Rattle.index_resolve.specs.HeaderSteps.{clean_at, operand_clean};

use code_forms::{FlatCode, Instr, Operand};
use flat_graph::Graph;
use std::alloc::{AllocError, Global};

/// Whether the value of each slot of the code is clean.
pub(crate) fn clean_slots(alloc: Global, code: &FlatCode) -> Result<Vec<bool>, AllocError>
    ensures { IfOk result (λ clean. clean.items
        ≡ clean_slots code.now.fields code.now.arrays code.now.instrs) }
{
    let graph = Graph::of(alloc, code)?;
    let instrs = code.instrs.as_slice();
    let mut clean = vec![in alloc; true; code.fields as usize]?;
    for number in 0..instrs.len() {
        let value = step_clean(&clean, instrs[number], graph.nodes[number].array);
        clean.push(value)?;
    }
    Ok(clean)
}

// Whether the value of an instruction of this array is clean.
fn step_clean(clean: &[bool], instr: Instr, array: Option<u32>) -> bool
    ensures { IsCleanStep clean.now instr array result }
{
    array.is_none() && instr_clean(clean, instr)
}

// Whether the value of an instruction is clean, where it makes no copy.
fn instr_clean(clean: &[bool], instr: Instr) -> bool
    ensures { (slots : Slots) → result ≡ instr_value Bool cleans slots clean.now instr }
{
    match instr {
        Instr::One(_, a) | Instr::Move(a) | Instr::Index(_, a) => operand_clean(clean, a),
        Instr::Two(_, a, b) | Instr::Yes(a, b) | Instr::No(a, b) => {
            operand_clean(clean, a) && operand_clean(clean, b)
        }
        Instr::Pick(a, b, c) | Instr::Hash(_, a, b, c) => {
            operand_clean(clean, a) && operand_clean(clean, b) && operand_clean(clean, c)
        }
        Instr::Load(_) | Instr::Store(_, _) => false,
    }
}

/// Whether the value of a slot is clean.
pub(crate) fn clean_at(clean: &[bool], slot: usize) -> bool
    ensures { result ≡ clean_at clean.now slot }
{
    clean.get(slot).copied().unwrap_or(true)
}

/// Whether an operand is clean.
pub(crate) fn operand_clean(clean: &[bool], operand: Operand) -> bool
    ensures { result ≡ operand_clean clean.now operand }
{
    match operand {
        Operand::Slot(slot) => clean_at(clean, slot as usize),
        Operand::Number(_) => true,
    }
}
