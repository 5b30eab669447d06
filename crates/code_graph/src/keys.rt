//! Keys of instructions, which tell their classes.
ghost use Rattle.std.specs.Prelude.{◌≡◌, ◌<◌, ◌≤◌, ℕ, IfOk, length};
ghost use Rattle.code_graph.specs.Keys.{IsKeyIn, AreKeysIn};

use flat_graph::Reached;
use std::alloc::{AllocError, Global};

/// The key of each of so many instructions: the least array that it depends on and that depends on it, if any.
pub(crate) fn keys_of(
    alloc: Global,
    count: u32,
    to: &Reached,
    from: &Reached,
) -> Result<Vec<Option<u32>>, AllocError>
    requires to { count ≤ length to.now.rows }
    requires from { count ≤ length from.now.rows }
    ensures { IfOk result (λ keys. AreKeysIn to.now.rows from.now.rows count keys.items) }
{
    let mut keys = Vec::with_capacity(alloc, count as usize)?;
    for instruction in 0..count {
        keys.push(key(to, from, instruction))?;
    }
    Ok(keys)
}

// The least array that is marked on both sides.
fn key(to: &Reached, from: &Reached, instruction: u32) -> Option<u32>
    requires to { instruction < length to.now.rows }
    requires from { instruction < length from.now.rows }
    ensures { IsKeyIn to.now.rows from.now.rows instruction result }
{
    for array in 0..16 {
        if to.has(instruction, array) && from.has(instruction, array) {
            return Some(array);
        }
    }
    None
}
