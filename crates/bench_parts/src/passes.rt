//! The compiler's passes up to the stages, on the longest code that is taken.
ghost use Rattle.std.specs.Prelude.{◌<◌, ◌^◌, IfOk};
ghost use Rattle.domino_tree.specs.Count.{count_of};

use crate::figure::{Figure, Trouble};
use branch_removal::remove_branches;
use code_forms::{FlatCode, GuardCode, Instr};
use code_graph::codelets;
use domino_check::{Checked, check};
use domino_syntax::read_program;
use mp5_words::NoMemory;
use ssa_flatten::{MAX_INSTRUCTIONS, flatten};
use stage_packing::pack;
use std::alloc::{AllocError, Global};
use std::rt::Clock;
use std::time::Instant;

/// How often each pass runs.
const TURNS: u32 = 100;

const HEAD: &str = "int a[4]; int b[4]; struct P { int x; int y; int n; }; void f(struct P p) { ";

/// Seven instructions: a comparison and its two guards, two sums and two assignments.
const ROUND: &str = "if (a[p.x] > 3) { b[p.y] = b[p.y] + 1; } a[p.x] = a[p.x] + 2; ";

/// So many rounds, six instructions of both arrays and three assignments are 1,024 instructions.
const ROUNDS: u32 = 145;

const TAIL: &str = "p.n = 1; p.n = 2; p.n = 3; }";

/// The figures of the passes, and of a copy of the instructions.
#[derive(Clone, Copy)]
pub struct Passes {
    pub removed: Figure,
    pub flattened: Figure,
    pub packed: Figure,
    pub copied: Figure,
}

// The figures of the passes behind the first, and of a copy of the instructions.
#[derive(Clone, Copy)]
struct FlatPasses {
    flattened: Figure,
    packed: Figure,
    copied: Figure,
}

/// Measures the passes on a program of 1,024 instructions.
pub fn measure(clock: &impl Clock, alloc: Global) -> Result<Passes, Trouble> {
    let text = text(alloc).map_err(NoMemory::from)?;
    let checked = checked_of(alloc, text.as_str())?;
    let removed = measure_removal(clock, alloc, &checked)?;
    let code = remove_branches(alloc, &checked)?;
    let flat = measure_code(clock, alloc, &code)?;
    Ok(Passes {
        removed,
        flattened: flat.flattened,
        packed: flat.packed,
        copied: flat.copied,
    })
}

// The flattening of this code, its packing, and a copy of its instructions.
fn measure_code(
    clock: &impl Clock,
    alloc: Global,
    code: &GuardCode,
) -> Result<FlatPasses, Trouble> {
    let flattened = measure_flattening(clock, alloc, code)?;
    let flat = flat_of(alloc, code)?;
    if flat.instrs.len() != MAX_INSTRUCTIONS as usize {
        return Err(Trouble::Refused);
    }
    let packed = measure_packing(clock, alloc, &flat)?;
    let copied = measure_copies(clock, alloc, flat.instrs.as_slice())?;
    Ok(FlatPasses {
        flattened,
        packed,
        copied,
    })
}

fn text(alloc: Global) -> Result<String, AllocError> {
    let mut text = String::from_str(alloc, HEAD)?;
    for _ in 0..ROUNDS {
        text.push_str(ROUND)?;
    }
    text.push_str(TAIL)?;
    Ok(text)
}

fn checked_of(alloc: Global, text: &str) -> Result<Checked, Trouble>
    ensures { IfOk result (λ checked. count_of checked < 2 ^ 32) }
{
    let Ok(program) = read_program(alloc, text.as_bytes()) else {
        return Err(Trouble::Refused);
    };
    match check(alloc, program) {
        Ok(checked) => Ok(checked),
        Err(_) => Err(Trouble::Refused),
    }
}

fn measure_removal(clock: &impl Clock, alloc: Global, checked: &Checked) -> Result<Figure, Trouble>
    requires { count_of checked.now < 2 ^ 32 }
{
    let mut removed = Figure::none();
    for _ in 0..TURNS {
        let start = Instant::now(clock)?;
        let code = remove_branches(alloc, checked)?;
        removed.add(clock, start, 1, code.fields)?;
    }
    Ok(removed)
}

fn measure_flattening(
    clock: &impl Clock,
    alloc: Global,
    code: &GuardCode,
) -> Result<Figure, Trouble> {
    let mut flattened = Figure::none();
    for _ in 0..TURNS {
        let start = Instant::now(clock)?;
        let flat = flat_of(alloc, code)?;
        flattened.add(clock, start, 1, flat.fields)?;
    }
    Ok(flattened)
}

fn flat_of(alloc: Global, code: &GuardCode) -> Result<FlatCode, Trouble> {
    match flatten(alloc, code) {
        Ok(flat) => Ok(flat),
        Err(_) => Err(Trouble::Refused),
    }
}

// The codelets, and the stages that they are packed into.
fn measure_packing(clock: &impl Clock, alloc: Global, flat: &FlatCode) -> Result<Figure, Trouble> {
    let mut packed = Figure::none();
    for _ in 0..TURNS {
        let start = Instant::now(clock)?;
        let stages = stages_of(alloc, flat)?;
        packed.add(clock, start, 1, stages)?;
    }
    Ok(packed)
}

// How many stages this code takes.
fn stages_of(alloc: Global, flat: &FlatCode) -> Result<u32, NoMemory> {
    let codelets = codelets(alloc, flat)?;
    let layout = pack(alloc, flat, &codelets)?;
    Ok(layout.stages)
}

fn measure_copies(clock: &impl Clock, alloc: Global, instrs: &[Instr]) -> Result<Figure, Trouble> {
    let mut copied = Figure::none();
    for _ in 0..TURNS {
        let start = Instant::now(clock)?;
        let copy = copy(alloc, instrs).map_err(NoMemory::from)?;
        copied.add(clock, start, 1, last_word(&copy))?;
    }
    Ok(copied)
}

fn copy(alloc: Global, instrs: &[Instr]) -> Result<Vec<Instr>, AllocError> {
    let mut copy = Vec::new(alloc);
    for instr in instrs {
        copy.push(*instr)?;
    }
    Ok(copy)
}

// A number that rests on the last instruction, so that no copy is left out.
fn last_word(instrs: &[Instr]) -> u32 {
    match instrs.last() {
        Some(Instr::Store(array, _)) => *array,
        _ => 0,
    }
}
