//! What an instruction's own text doesn't tell: where each array's Index is, and which copies are made.
ghost use Rattle.std.specs.Prelude.{◌≡◌, ◌==◌, ◌<◌, ◌≤◌, ◌∷◌, ℕ, suc, if◌then◌else◌};
ghost use Rattle.std.specs.Prelude.{All, List, Some, None, IfOk, length, replicate};
ghost use Rattle.std.specs.List.{list_any, slice_index_or};
ghost use Rattle.code_forms.specs.declared.flat.Instr.{Instr};
ghost use Rattle.flat_graph.specs.Orders.{HasArray, HaveArrays, ArePlaces, AreCopies, AreWithin, copies_in};

use code_forms::{FlatArray, Instr};
use std::alloc::{AllocError, Global};

/// For each of sixteen arrays the number of its first Index; the number of instructions where it has none.
pub(crate) fn index_places(instrs: &[Instr]) -> [u32; 16]
    requires few { length instrs.now ≤ 1024 }
    requires arrays { HaveArrays 16 instrs.now }
    ensures { ArePlaces 0 instrs.now result }
{
    let mut places = [instrs.len() as u32; 16];
    for number in (0..instrs.len()).rev() {
        place(&mut places, &instrs[number], number as u32);
    }
    places
}

// Notes the place of an Index, which stands before those that are noted.
fn place(places: &mut [u32; 16], instr: &Instr, number: u32)
    requires { HasArray 16 instr.now }
    ensures { (later : List Instr) → ArePlaces (suc number) later places.old
        → ArePlaces number (instr.now ∷ later) places.new }
{
    if let Instr::Index(array, _) = instr {
        places[*array as usize] = number;
    }
}

/// For each of so many instructions the array of which it makes a later copy.
pub(crate) fn copies_of(
    alloc: Global,
    count: usize,
    arrays: &[FlatArray],
) -> Result<Vec<Option<u32>>, AllocError>
    requires few { length arrays.now ≤ 16 }
    requires copies { AreWithin count arrays.now }
    ensures long { IfOk result (λ copies. length copies.items ≡ count) }
    ensures copies { IfOk result (λ copies. AreCopies count 0 (copies_in arrays.now) copies.items) }
{
    let mut copies = no_copies(alloc, count)?;
    for array in (0..arrays.len()).rev() {
        mark(&mut copies, arrays[array].copies.as_slice(), array as u32);
    }
    Ok(copies)
}

// Nothing for so many instructions.
fn no_copies(alloc: Global, count: usize) -> Result<Vec<Option<u32>>, AllocError>
    ensures { IfOk result (λ copies. copies.items ≡ replicate count None) }
{
    let mut copies = Vec::with_capacity(alloc, count)?;
    for _ in 0..count {
        copies.push(None)?;
    }
    Ok(copies)
}

// Notes the array at these instructions.
fn mark(copies: &mut [Option<u32>], numbers: &[u32], array: u32)
    requires { All (λ n. n < length copies.old) numbers.now }
    ensures long { length copies.new ≡ length copies.old }
    ensures marked { (k : ℕ) → k < length copies.old → slice_index_or copies.new k None
        ≡ (if list_any (λ n. k == n) numbers.now then Some array
        else slice_index_or copies.old k None) }
{
    for number in numbers {
        copies[*number as usize] = Some(array);
    }
}
