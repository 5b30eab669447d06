//! The checks of names, and then of sizes, in order.

ghost use Rattle.std.specs.Prelude.{◌≡◌, IfOk, OnOk};
ghost use Rattle.domino_names.specs.First.{IfRefused};
ghost use Rattle.domino_names.specs.NamesRefused.{PassesNames, PassesSizes, RefusedNames, RefusedSizes};
ghost use Rattle.domino_names.specs.Symbols.{HasNumbers, symbols_of};

use crate::declarations::declarations;
use crate::fault::CheckFault;
use crate::name_checks::{check_calls, check_kinds, check_known, symbols_of};
use crate::size_checks::{check_counts, check_lengths};
use crate::symbol_table::Symbols;
use crate::uses::uses_of;
use domino_tree::Program;
use std::alloc::Global;

/// The checks of names and calls: the first that fails decides. Gives the table of what the names stand for.
pub fn check_names(alloc: Global, program: &Program) -> Result<Symbols<'_>, CheckFault>
    ensures symbols { IfOk result (λ symbols. symbols ≡ symbols_of program.now) }
    ensures passes { OnOk result (PassesNames program.now) }
    ensures refuses { IfRefused result (RefusedNames program.now) }
{
    let declared = declarations(alloc, program)?;
    let symbols = symbols_of(alloc, &declared)?;
    let uses = uses_of(alloc, program)?;
    check_known(alloc, &uses, &symbols)?;
    check_kinds(alloc, &uses, &symbols)?;
    check_calls(alloc, &uses)?;
    Ok(symbols)
}

/// The checks of lengths and counts: the first that fails decides.
pub fn check_sizes(
    alloc: Global,
    program: &Program,
    symbols: &Symbols<'_>,
) -> Result<(), CheckFault>
    requires { HasNumbers symbols.now program.now }
    ensures passes { OnOk result (PassesSizes program.now) }
    ensures refuses { IfRefused result (RefusedSizes program.now) }
{
    check_lengths(alloc, program, symbols)?;
    check_counts(alloc, program, symbols)
}
