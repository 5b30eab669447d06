ghost use Rattle.std.specs.Prelude.{◌≡◌, ◌≢◌, ◌<◌, ◌≤◌, ◌^◌, ◌⊎◌, ℕ, List, length, IfOk, IfErr};
ghost use Rattle.domino_tree.specs.declared.token.Token.{Token};
ghost use Rattle.domino_tree.specs.declared.program.Program.{Program};
ghost use Rattle.domino_tree.specs.Derives.{Tree, DerivesTree};
ghost use Rattle.domino_tree.specs.Text.{text_of};
ghost use Rattle.domino_tree.specs.Count.{count_of};
ghost use Rattle.domino_syntax.specs.declared.fault.TextFault.{TextFault};
ghost use Rattle.domino_syntax.specs.declared.fault.TextFault.TheVariants as fault;
ghost use Rattle.domino_syntax.specs.ProgramText.{IsProgramText, Refuses, IsReadAs, IsRefusedFor};

use crate::fault::TextFault;
use crate::lex::tokens_of;
use crate::limits::MAX_TEXT;
use crate::parse::program;
use crate::weigh::heavy_at;
use domino_tree::Program;
use std::alloc::Global;

/// Reads a text that isn't too long.
fn read_short(alloc: Global, text: &[u8]) -> Result<Program, TextFault>
    requires { length text.now ≤ MAX_TEXT }
    ensures read { IfOk result (λ program. IsProgramText text.now program) }
    ensures refused { IfErr result (λ f. f ≢ fault.NoMemory → Refuses text.now f) }
{
    let tokens = tokens_of(alloc, text)?;
    if let Some(n) = heavy_at(&tokens) {
        return Err(TextFault::TooDeep(n as u32));
    }
    program(alloc, &tokens)
}

/// Reads a program text: any bytes.
///
/// The text has at most 65,536 bytes and is tokens, white space and comments to its end, the weight of the
/// tokens never exceeds 64, and the grammar derives them. Else the answer is the first of `TooLong`,
/// `BadToken`, `TooDeep` and `Syntax` that is true of the text, with its place. `NoMemory` may come in place
/// of any answer.
pub fn read_program(alloc: Global, text: &[u8]) -> Result<Program, TextFault>
    // What is read is the program that the grammar derives from the text's tokens.
    ensures read { IfOk result (λ program. IsProgramText text.now program) }
    // The count of its transaction fits 32 bits.
    ensures counted { IfOk result (λ program. count_of program < 2 ^ 32) }
    // A text is refused only for what it is refused for, or for want of memory.
    ensures refused { IfErr result (λ f. f ≢ fault.NoMemory → Refuses text.now f) }
    // A program's text is read to it, unless memory runs out.
    ensures accepts { (program : Program)
        → IsProgramText text.now program
        → IsReadAs result program }
    // A text that is refused for something gets that answer, unless memory runs out.
    ensures refuses { (f : TextFault) → Refuses text.now f → IsRefusedFor result f }
    // What `print` writes of a program is read to it, where it has at most 65,536 bytes.
    ensures printed { (program : Program)
        → text.now ≡ text_of program
        → length text.now ≤ 65536
        → IsReadAs result program }
    // Each text is a program's, or is refused for something.
    ensures decides { (all : List ℕ)
        → ((program : Program) × IsProgramText all program) ⊎ ((f : TextFault) × Refuses all f) }
    // No text is both, or two programs', or refused for two reasons or at two places.
    ensures one_answer { (all : List ℕ) (program : Program) (f : TextFault)
        → IsProgramText all program
        → ¬ Refuses all f }
    ensures one_program { (all : List ℕ) (p q : Program)
        → IsProgramText all p
        → IsProgramText all q
        → p ≡ q }
    ensures one_refusal { (all : List ℕ) (a b : TextFault)
        → Refuses all a
        → Refuses all b
        → a ≡ b }
    // No token list derives two trees, whatever it weighs.
    ensures one_tree { (tokens : List Token) (a b : Tree)
        → DerivesTree tokens a
        → DerivesTree tokens b
        → a ≡ b }
{
    if MAX_TEXT < text.len() {
        return Err(TextFault::TooLong(text.len() as u64));
    }
    read_short(alloc, text)
}
