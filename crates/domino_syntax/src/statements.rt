//! The parsers of statements.
//!
//! `depth` bounds how deep blocks and expressions stand in one another. Each takes a token, so the number
//! of the tokens is enough.

ghost use Rattle.domino_syntax.specs.ReadingPrograms as spec;
ghost use Rattle.std.specs.Prelude.{◌≡◌};
ghost use Rattle.domino_syntax.specs.Parsers.{Reads, first, all_of};

use crate::expressions::expression;
use crate::reader::{Reader, Stop};
use domino_tree::{Arm, Keyword, Sign, Stmt, Target};
use mp5_words::Name;
use sqlite_items::Items;
use std::alloc::Global;

/// A field, from the dot on.
#[tactic(auto, unfolding(crate::specs::ReadingPrograms::dotted))]
fn dotted(alloc: Global, reader: &mut Reader<'_>, name: Name) -> Result<Target, Stop>
    ensures { Reads (spec.dotted name reader.old) result reader.new }
{
    reader.sign(Sign::Dot)?;
    let field = reader.name(alloc)?;
    Ok(Target::Field(name, field))
}

/// A cell, from the square bracket on.
#[tactic(auto, unfolding(crate::specs::ReadingPrograms::indexed))]
fn indexed(alloc: Global, reader: &mut Reader<'_>, depth: usize, name: Name) -> Result<Target, Stop>
    ensures { Reads (spec.indexed depth name reader.old) result reader.new }
{
    reader.sign(Sign::OpenSquare)?;
    let index = expression(alloc, reader, depth)?;
    reader.sign(Sign::CloseSquare)?;
    Ok(Target::Cell(name, index))
}

/// What is written, from its first name on.
#[tactic(auto, unfolding(crate::specs::ReadingPrograms::after_name))]
fn after_name(
    alloc: Global,
    reader: &mut Reader<'_>,
    depth: usize,
    name: Name,
) -> Result<Target, Stop>
    ensures { Reads (spec.after_name depth name reader.old) result reader.new }
{
    if reader.sees_sign(Sign::Dot) {
        return dotted(alloc, reader, name);
    }
    if reader.sees_sign(Sign::OpenSquare) {
        return indexed(alloc, reader, depth, name);
    }
    Ok(Target::Word(name))
}

/// What an assignment writes: a register, a field or a cell.
#[tactic(auto, unfolding(crate::specs::ReadingPrograms::target))]
fn target(alloc: Global, reader: &mut Reader<'_>, depth: usize) -> Result<Target, Stop>
    ensures { Reads (spec.target depth reader.old) result reader.new }
{
    let name = reader.name(alloc)?;
    after_name(alloc, reader, depth, name)
}

#[tactic(auto, unfolding(crate::specs::ReadingPrograms::assignment))]
fn assignment(alloc: Global, reader: &mut Reader<'_>, depth: usize) -> Result<Stmt, Stop>
    ensures { Reads (spec.assignment depth reader.old) result reader.new }
{
    let target = target(alloc, reader, depth)?;
    reader.sign(Sign::Assign)?;
    let value = expression(alloc, reader, depth)?;
    reader.sign(Sign::Semicolon)?;
    Ok(Stmt::Set(target, value))
}

/// Whether a statement begins with the next token.
fn begins_statement(reader: &Reader<'_>) -> bool
    ensures { result ≡ spec.begins_statement (first reader.now) }
{
    reader.sees_keyword(Keyword::If) || reader.sees_name()
}

/// Statements in a row.
#[cycle(statement)]
#[tactic(auto, unfolding(crate::specs::Parsers::repeat))]
fn body(alloc: Global, reader: &mut Reader<'_>, depth: usize) -> Result<Items<Stmt>, Stop>
    ensures { Reads (all_of spec.begins_statement (spec.statement depth) reader.old)
        result reader.new }
{
    let mut found = Items::new(alloc);
    for _turn in 0..reader.left() {
        if !begins_statement(reader) {
            return Ok(found);
        }
        found.push(statement(alloc, reader, depth)?)?;
    }
    Ok(found)
}

/// Statements in braces.
#[cycle(statement)]
#[tactic(auto, unfolding(crate::specs::ReadingPrograms::block))]
pub(crate) fn block(
    alloc: Global,
    reader: &mut Reader<'_>,
    depth: usize,
) -> Result<Items<Stmt>, Stop>
    ensures { Reads (spec.block (spec.statement depth) reader.old) result reader.new }
{
    reader.sign(Sign::OpenCurly)?;
    let found = body(alloc, reader, depth)?;
    reader.sign(Sign::CloseCurly)?;
    Ok(found)
}

/// `if`, a condition in round brackets, and a block.
#[cycle(statement)]
#[tactic(auto, unfolding(crate::specs::ReadingPrograms::arm))]
fn arm(alloc: Global, reader: &mut Reader<'_>, depth: usize) -> Result<Arm, Stop>
    ensures { Reads (spec.arm depth (spec.statement depth) reader.old) result reader.new }
{
    reader.keyword(Keyword::If)?;
    reader.sign(Sign::OpenRound)?;
    let cond = expression(alloc, reader, depth)?;
    reader.sign(Sign::CloseRound)?;
    let body = block(alloc, reader, depth)?;
    Ok(Arm { cond, body })
}

/// Arms with `else` between them, and the last block where there is one.
#[cycle(statement)]
#[tactic(auto, unfolding(crate::specs::ReadingPrograms::conditional))]
fn conditional(alloc: Global, reader: &mut Reader<'_>, depth: usize) -> Result<Stmt, Stop>
    ensures { Reads (spec.conditional depth (spec.statement depth) reader.old) result reader.new }
{
    let mut arms = Items::new(alloc);
    arms.push(arm(alloc, reader, depth)?)?;
    for _turn in 0..reader.left() {
        if !reader.sees_keyword(Keyword::Else) {
            return Ok(Stmt::If(arms, None));
        }
        reader.keyword(Keyword::Else)?;
        if !reader.sees_keyword(Keyword::If) {
            let last = block(alloc, reader, depth)?;
            return Ok(Stmt::If(arms, Some(last)));
        }
        arms.push(arm(alloc, reader, depth)?)?;
    }
    Ok(Stmt::If(arms, None))
}

/// A chain, or an assignment.
#[cycle(statement)]
#[tactic(auto, unfolding(crate::specs::ReadingPrograms::statement))]
fn statement(alloc: Global, reader: &mut Reader<'_>, depth: usize) -> Result<Stmt, Stop>
    ensures { Reads (spec.statement depth reader.old) result reader.new }
{
    if depth == 0 {
        return Err(Stop::Syntax);
    }
    if reader.sees_keyword(Keyword::If) {
        conditional(alloc, reader, depth - 1)
    } else {
        assignment(alloc, reader, depth)
    }
}
