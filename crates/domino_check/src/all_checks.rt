//! All checks, in order.

ghost use Rattle.std.specs.Prelude.{◌≡◌, ◌≢◌, IfOk, IfErr, OnOk, IsErrAnd};
ghost use Rattle.domino_names.specs.declared.fault.CheckFault.{CheckFault as Fault};
ghost use Rattle.domino_names.specs.declared.fault.CheckFault.TheVariants.{NoMemory};
ghost use Rattle.domino_check.specs.Accepted.{ArePartsOf};
ghost use Rattle.domino_names.specs.First.{IfRefused};
ghost use Rattle.domino_names.specs.NamesRefused.{PassesNames, PassesSizes};
ghost use Rattle.domino_check.specs.Refused.{Passes};
ghost use Rattle.domino_names.specs.NamesRefused.{RefusedNames, RefusedSizes};
ghost use Rattle.domino_check.specs.Refused.{Refused};
ghost use Rattle.domino_names.specs.Symbols.{HasNumbers, symbols_of};

use crate::checked::Checked;
use crate::parts::{Parts, parts_of};
use domino_names::{CheckFault, check_names, check_sizes};
use domino_tree::Program;
use std::alloc::Global;

// What a program keeps beside itself, where it passes all checks.
fn checked_parts(alloc: Global, program: &Program) -> Result<Parts, CheckFault>
    ensures parts { IfOk result (ArePartsOf program.now) }
    ensures refused { IfRefused result (Refused program.now) }
{
    let symbols = check_names(alloc, program)?;
    check_sizes(alloc, program, &symbols)?;
    parts_of(alloc, program, &symbols)
}

// All checks.
fn check_all(alloc: Global, program: Program) -> Result<Checked, CheckFault>
    ensures read { IfOk result (λ checked. checked ≡ program) }
    ensures passes { OnOk result (Passes program) }
    ensures refused { IfRefused result (Refused program) }
{
    let parts = checked_parts(alloc, &program)?;
    Ok(Checked::new(program, parts))
}

/// Checks a program. The checks are made in the order of the faults' variants; within one the first place in
/// text order decides.
pub fn check(alloc: Global, program: Program) -> Result<Checked, CheckFault>
    // What is accepted is the program, which passes all checks.
    ensures read { IfOk result (λ checked. checked ≡ program) }
    ensures passes { OnOk result (Passes program) }
    // A program is refused by the fault that the checks give, or memory ran out.
    ensures refused { IfErr result (λ f. f ≢ NoMemory → Refused program f) }
    // The other way round: a program that passes is accepted, and one that a fault refuses is refused by it,
    // each unless memory ran out.
    ensures accepts { Passes program → IfErr result (λ f. f ≡ NoMemory) }
    ensures refuses { (f : Fault) → Refused program f
        → IsErrAnd result (λ g. g ≢ NoMemory → g ≡ f) }
    // No program is refused by two faults.
    ensures one_refusal { (f g : Fault) → Refused program f → Refused program g → f ≡ g }
{
    check_all(alloc, program)
}
