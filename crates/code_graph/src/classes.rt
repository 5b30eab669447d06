//! The one call of the pass.
ghost use Rattle.std.specs.Prelude.{IfOk, length};
ghost use Rattle.dependence.specs.Reach.{AreClasses};
ghost use Rattle.dependence.specs.Uses.{Depends};
ghost use Rattle.flat_graph.specs.Nodes.{nodes};

use crate::keys::keys_of;
use code_forms::{Codelets, FlatCode};
use dependence::number_classes;
use flat_graph::{reached, reached_from};
use mp5_words::NoMemory;
use sqlite_items::Items;
use std::alloc::Global;

/// The codelets of flat code: instructions have one number where each depends on the other, directly or through
/// others. An instruction depends on those that it uses, and on those of its array. Numbers go up from 0, by first
/// instructions. It takes time in proportion to the code, times sixteen.
pub fn codelets(alloc: Global, code: &FlatCode) -> Result<Codelets, NoMemory>
    ensures { IfOk result (λ k.
        AreClasses (Depends (nodes code.now)) (length code.now.instrs) k.of) }
{
    let to = reached(alloc, code)?;
    let from = reached_from(alloc, code)?;
    let keys = keys_of(alloc, code.instrs.len() as u32, &to, &from)?;
    let numbers = number_classes(alloc, &keys)?;
    Ok(Codelets {
        of: Items::from_vec(numbers),
    })
}
