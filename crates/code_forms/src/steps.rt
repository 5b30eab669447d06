//! The instructions of staged code with the slots that they write.
ghost use Rattle.std.specs.Prelude.{◌≡◌, ◌+◌, ◌<◌, ◌^◌, ℕ, length, map, slice_index, IfOk};
ghost use Rattle.code_forms.specs.Needed.{numbered_step};

use crate::flat::Instr;
use crate::parts::HeaderStep;
use sqlite_items::Items;
use std::alloc::{AllocError, Global};

/// The instructions of these numbers, in order, each with the slot that it writes.
pub(crate) fn steps_of(
    alloc: Global,
    fields: u32,
    instrs: &[Instr],
    order: &[u32],
) -> Result<Items<HeaderStep>, AllocError>
    requires known { (p : ℕ) → p < length order.now → slice_index order.now p < length instrs.now }
    requires room { fields + length instrs.now < 2 ^ 32 }
    ensures { IfOk result (λ steps. steps ≡ map (numbered_step fields instrs.now) order.now) }
{
    let mut steps = Items::new(alloc);
    for number in order {
        steps.push(HeaderStep {
            instr: instrs[*number as usize],
            slot: fields + *number,
        })?;
    }
    Ok(steps)
}
