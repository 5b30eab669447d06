//! From a checked program to its staged code, pass by pass.
ghost use Rattle.std.specs.Prelude.{◌<◌, ◌≤◌, ◌^◌, ◌≢◌, IfOk, IfErr, OnOk};
ghost use Rattle.domino_tree.specs.Count.{count_of};
ghost use Rattle.domino_compile.specs.Compiled.{IsCompiled};
ghost use Rattle.domino_compile.specs.Accepted.{IsTooLarge};
ghost use Rattle.domino_compile.specs.declared.fault.ProgramFault.TheVariants as fault;

use crate::fault::ProgramFault;
use branch_removal::remove_branches;
use code_forms::StagedCode;
use code_graph::codelets;
use domino_check::Checked;
use index_resolve::resolve;
use ssa_flatten::flatten;
use stage_packing::pack;
use std::alloc::Global;

/// The staged code of a program. A program of more than 1,024 instructions is refused, with their number.
pub(crate) fn staged_code(alloc: Global, source: &Checked) -> Result<StagedCode, ProgramFault>
    requires { count_of source.now < 2 ^ 32 }
    ensures compiled { IfOk result (λ code. IsCompiled source.now code) }
    ensures few { OnOk result (count_of source.now ≤ 1024) }
    ensures refused { IfErr result (λ f. f ≢ fault.NoMemory → IsTooLarge source.now f) }
{
    // From here on it is known that the program passes the checks.
    let _program = source.program();
    let guarded = remove_branches(alloc, source)?;
    let flat = flatten(alloc, &guarded)?;
    let codelets = codelets(alloc, &flat)?;
    let layout = pack(alloc, &flat, &codelets)?;
    Ok(resolve(alloc, &flat, &layout)?)
}
