//! The steps of the header run.
ghost use Rattle.std.specs.Prelude.{◌≡◌, ◌+◌, ◌^◌, ◌<◌, if◌then◌else◌, IfOk, length, Some, None};
ghost use Rattle.index_resolve.specs.HeaderSteps.{header_instr, header_steps};

use crate::clean::{clean_at, operand_clean};
use code_forms::{HeaderStep, Instr};
use sqlite_items::Items;
use std::alloc::{AllocError, Global};

/// The steps of the header run of these instructions, the first of which writes such a slot.
pub(crate) fn header_steps(
    alloc: Global,
    clean: &[bool],
    fields: u32,
    instrs: &[Instr],
) -> Result<Items<HeaderStep>, AllocError>
    requires { fields + length instrs.now < 2 ^ 32 }
    ensures { IfOk result (λ steps. steps ≡ header_steps clean.now fields instrs.now) }
{
    let mut steps = Items::new(alloc);
    for number in 0..instrs.len() {
        let slot = fields + number as u32;
        let own = clean_at(clean, slot as usize);
        if let Some(instr) = header_instr(clean, own, instrs[number]) {
            steps.push(HeaderStep { instr, slot })?;
        }
    }
    Ok(steps)
}

// What the header run makes of an instruction, whose value is clean or not.
fn header_instr(clean: &[bool], own: bool, instr: Instr) -> Option<Instr>
    ensures { result ≡ header_instr clean.now own instr }
{
    match instr {
        Instr::Yes(guard, c) | Instr::No(guard, c) => {
            let stays = operand_clean(clean, c);
            Some(if stays { instr } else { Instr::Move(guard) })
        }
        Instr::Load(_) | Instr::Store(_, _) => None,
        _ => kept(own, instr),
    }
}

// The instruction, where it is kept.
fn kept(own: bool, instr: Instr) -> Option<Instr>
    ensures { result ≡ (if own then Some instr else None) }
{
    if own { Some(instr) } else { None }
}
