//! Staged code, run on one packet.
ghost use Rattle.std.specs.Prelude.{◌<◌, length};

use code_forms::{StagedCode, Unit};
use mp5_words::NoMemory;
use std::alloc::{AllocError, Global};

/// The fields after a packet, and for each group the set of the touched arrays with the cells of the placed unit afterwards,
/// where each unit had its start values; `skipped` where the packet has no place.
pub fn told_run(alloc: Global, code: &StagedCode, header: &[i32]) -> Result<String, NoMemory> {
    let mut told = String::new(alloc);
    let mut places = [0u32; 16];
    let mut env = vec![in alloc; 0i32; code.slots() as usize]?;
    if header.len() == code.fields() as usize && code.fields() <= code.slots() {
        code.places(header, &mut env, &mut places);
        env[..header.len()].copy_from_slice(header);
    }
    code.run_block(0, &mut env);
    for g in 0..code.groups() {
        let place = places.get(g as usize).copied().unwrap_or(0);
        pass(alloc, &mut told, code, g, place, &mut env)?;
        code.run_block(g + 1, &mut env);
    }
    let mut fields = vec![in alloc; 0i32; code.fields() as usize]?;
    code.finish(&env, &mut fields);
    front(alloc, &fields, &told)
}

// Passes a group with a place, 0 or 1 more than the unit.
fn pass(
    alloc: Global,
    told: &mut String,
    code: &StagedCode,
    g: u32,
    place: u32,
    env: &mut [i32],
) -> Result<(), NoMemory>
    requires { g < length code.now.groups }
{
    if 0 < place && place <= code.units(g) {
        let mut unit = code.unit(alloc, g, place - 1)?;
        let set = code.serve(g, env, &mut unit);
        write!(told, "; {set}:")?;
        tell_cells(told, &unit)?;
    } else {
        code.skip(g, env);
        told.push_str("; skipped")?;
    }
    Ok(())
}

fn tell_cells(told: &mut String, unit: &Unit) -> Result<(), AllocError> {
    for cell in unit.cells.as_slice() {
        write!(told, " {cell}")?;
    }
    Ok(())
}

// The fields, with this behind them.
fn front(alloc: Global, fields: &[i32], rest: &str) -> Result<String, NoMemory> {
    let mut told = String::new(alloc);
    for field in fields {
        if !told.is_empty() {
            told.push(' ')?;
        }
        write!(told, "{field}")?;
    }
    told.push_str(rest)?;
    Ok(told)
}
