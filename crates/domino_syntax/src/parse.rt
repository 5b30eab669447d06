//! The parser of programs.

ghost use Rattle.std.specs.Prelude.{◌≡◌, ◌≤◌, length, true, IfOk, IfErr};
ghost use Rattle.std.specs.List.{list_all};
ghost use Rattle.domino_tree.specs.declared.program.Program.{Program};
ghost use Rattle.domino_tree.specs.Derives.{Derives};
ghost use Rattle.domino_tree.specs.Grammar.{are_words};
ghost use Rattle.domino_tree.specs.Weight.{is_light};
ghost use Rattle.domino_syntax.specs.declared.fault.TextFault.TheVariants as fault;
ghost use Rattle.domino_syntax.specs.ReadingPrograms as spec;
ghost use Rattle.domino_syntax.specs.Parsers.{Reads};
ghost use Rattle.domino_syntax.specs.Stuck.{Sticks};
ghost use Rattle.domino_syntax.specs.Tokens.{is_token};

use crate::declarations::{items, packet};
use crate::fault::TextFault;
use crate::reader::{Reader, Stop};
use crate::statements::block;
use domino_tree::{Function, Item, Keyword, PacketDecl, Program, Sign, Token};
use mp5_words::Name;
use sqlite_items::Items;
use std::alloc::Global;

/// The function's names: its own, the struct's and the packet's.
#[tactic(auto, unfolding(crate::specs::ReadingPrograms::head))]
fn head(alloc: Global, reader: &mut Reader<'_>) -> Result<(Name, Name, Name), Stop>
    ensures { Reads (spec.head reader.old) result reader.new }
{
    reader.keyword(Keyword::Void)?;
    let name = reader.name(alloc)?;
    reader.sign(Sign::OpenRound)?;
    reader.keyword(Keyword::Struct)?;
    let of = reader.name(alloc)?;
    let packet = reader.name(alloc)?;
    reader.sign(Sign::CloseRound)?;
    Ok((name, of, packet))
}

/// The transaction.
#[tactic(auto, unfolding(crate::specs::ReadingPrograms::function))]
fn function(alloc: Global, reader: &mut Reader<'_>, depth: usize) -> Result<Function, Stop>
    ensures { Reads (spec.function depth reader.old) result reader.new }
{
    let (name, of, packet) = head(alloc, reader)?;
    let body = block(alloc, reader, depth)?;
    Ok(Function {
        name,
        of,
        packet,
        body,
    })
}

type Parts = (Items<Item>, PacketDecl, Items<Item>, Function);

/// The parts of a whole program.
#[tactic(auto, unfolding(crate::specs::ReadingPrograms::parts))]
fn parts(alloc: Global, reader: &mut Reader<'_>, depth: usize) -> Result<Parts, Stop>
    ensures { Reads (spec.parts depth reader.old) result reader.new }
{
    let before = items(alloc, reader)?;
    let packet = packet(alloc, reader)?;
    let after = items(alloc, reader)?;
    let function = function(alloc, reader, depth)?;
    reader.end()?;
    Ok((before, packet, after, function))
}

/// The program that the grammar derives from the tokens.
pub(crate) fn program(alloc: Global, tokens: &[Token]) -> Result<Program, TextFault>
    // Each name among the tokens is one.
    requires named { list_all is_token tokens.now ≡ true }
    // The weight never exceeds 64.
    requires light { is_light tokens.now ≡ true }
    // Each number among the tokens has 32 bits.
    requires words { are_words tokens.now ≡ true }
    // The place of an error is a number of 32 bits.
    requires short { length tokens.now ≤ 4294967295 }
    // What is read is the program that the grammar derives.
    ensures read { IfOk result (λ program. Derives tokens.now program) }
    // The tokens are refused at the place where no program goes on, or memory ran out.
    ensures refused { IfErr result (Sticks tokens.now) }
    // Tokens that have a program are refused for want of memory alone.
    ensures complete { (program : Program)
        → Derives tokens.now program
        → IfErr result (λ f. f ≡ fault.NoMemory) }
{
    let mut reader = Reader::new(tokens);
    match parts(alloc, &mut reader, tokens.len()) {
        Ok((before, packet, after, function)) => Ok(Program {
            before,
            packet,
            after,
            function,
        }),
        Err(Stop::Syntax) => Err(TextFault::Syntax((tokens.len() - reader.left()) as u32)),
        Err(Stop::NoMemory) => Err(TextFault::NoMemory),
    }
}
