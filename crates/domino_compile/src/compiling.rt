//! The one call of the compiler.
ghost use Rattle.std.specs.Prelude.{◌≡◌, ◌≢◌, ◌⊎◌, ℕ, List, IfOk, IfErr};
ghost use Rattle.domino_tree.specs.declared.program.Program.{Program};
ghost use Rattle.domino_compile.specs.declared.fault.ProgramFault.{ProgramFault as Fault};
ghost use Rattle.domino_compile.specs.declared.fault.ProgramFault.TheVariants as fault;
ghost use Rattle.domino_compile.specs.Accepted.{IsAccepted, IsUnaccepted, IsCompiledTo, IsRefusedFor};
ghost use Rattle.domino_compile.specs.Compiled.{IsCompiled};

use crate::compiled::Compiled;
use crate::fault::ProgramFault;
use crate::passes::staged_code;
use domino_check::check;
use domino_syntax::read_program;
use std::alloc::Global;

// Reads, checks and compiles a text.
fn compile_text(alloc: Global, text: &[u8]) -> Result<Compiled, ProgramFault>
    ensures read { IfOk result (λ c. IsAccepted text.now c.program) }
    ensures compiled { IfOk result (λ c. IsCompiled c.program c.code) }
    ensures refused { IfErr result (λ f. f ≢ fault.NoMemory → IsUnaccepted f text.now) }
{
    let program = read_program(alloc, text)?;
    let source = check(alloc, program)?;
    let code = staged_code(alloc, &source)?;
    Ok(Compiled { source, code })
}

/// Compiles the text of a program: any bytes.
///
/// The first refusal of reading, checking and flattening, in this order, decides. `NoMemory` may come in place of any
/// answer.
pub fn compile(alloc: Global, text: &[u8]) -> Result<Compiled, ProgramFault>
    // What is compiled is the program that the text is accepted as, and the code is its code.
    ensures read { IfOk result (λ c. IsAccepted text.now c.program) }
    ensures compiled { IfOk result (λ c. IsCompiled c.program c.code) }
    // A text is refused only for what it is refused for, or for want of memory.
    ensures refused { IfErr result (λ f. f ≢ fault.NoMemory → IsUnaccepted f text.now) }
    // The other way round: an accepted text is compiled, and one that is refused for something gets that answer, each
    // unless memory runs out.
    ensures accepts { (p : Program) → IsAccepted text.now p → IsCompiledTo result p }
    ensures refuses { (f : Fault) → IsUnaccepted f text.now → IsRefusedFor result f }
    // Each text is accepted as a program or refused for something; never both, and never in two ways.
    ensures decides { (all : List ℕ)
        → ((p : Program) × IsAccepted all p) ⊎ ((f : Fault) × IsUnaccepted f all) }
    ensures one_answer { (all : List ℕ) (p : Program) (f : Fault)
        → IsAccepted all p
        → ¬ IsUnaccepted f all }
    ensures one_program { (all : List ℕ) (p q : Program)
        → IsAccepted all p
        → IsAccepted all q
        → p ≡ q }
    ensures one_refusal { (all : List ℕ) (f g : Fault)
        → IsUnaccepted f all
        → IsUnaccepted g all
        → f ≡ g }
{
    compile_text(alloc, text)
}
