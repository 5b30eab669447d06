//! The parser of expressions: one function for each form, and one for all precedence levels.

ghost use Rattle.std.specs.Prelude.{◌≡◌, ◌<◌, ◌≤◌, ◌-◌, IfOk};
ghost use Rattle.domino_tree.specs.declared.expr.Expr.TheVariants as expr;
ghost use Rattle.domino_syntax.specs.Parsers.{Reads};
ghost use Rattle.domino_syntax.specs.ReadingExpressions as spec;

use crate::reader::{Reader, Stop};
use domino_tree::{Expr, Sign};
use mp5_words::{Name, Op1, Op2};
use sqlite_items::{Boxed, Items};
use std::alloc::{AllocError, Global};

/// How many precedence levels are below the loosest, `c ? a : b`.
const LOOSEST: usize = 11;

/// A prefix operator on its operand.
fn one(alloc: Global, op: Op1, operand: Expr) -> Result<Expr, AllocError>
    ensures { IfOk result (λ e. e ≡ expr.One op operand) }
{
    Ok(Expr::One(op, Boxed::new(alloc, operand)?))
}

/// An operator between two expressions.
fn two(alloc: Global, op: Op2, left: Expr, right: Expr) -> Result<Expr, AllocError>
    ensures { IfOk result (λ e. e ≡ expr.Two op left right) }
{
    Ok(Expr::Two(op, Boxed::new(alloc, left)?, Boxed::new(alloc, right)?))
}

/// One of two expressions, as a condition says.
fn pick_of(alloc: Global, cond: Expr, then: Expr, other: Expr) -> Result<Expr, AllocError>
    ensures { IfOk result (λ e. e ≡ expr.Pick cond then other) }
{
    Ok(Expr::Pick(
        Boxed::new(alloc, cond)?,
        Boxed::new(alloc, then)?,
        Boxed::new(alloc, other)?,
    ))
}

/// `.`, and the field's name.
#[tactic(auto, unfolding(crate::specs::ReadingExpressions::field))]
fn field(alloc: Global, reader: &mut Reader<'_>, name: Name) -> Result<Expr, Stop>
    ensures { Reads (spec.field name reader.old) result reader.new }
{
    reader.sign(Sign::Dot)?;
    Ok(Expr::Field(name, reader.name(alloc)?))
}

/// An expression in brackets of one kind.
#[cycle(expression)]
#[tactic(auto, unfolding(crate::specs::ReadingExpressions::bracketed))]
fn bracketed(
    alloc: Global,
    reader: &mut Reader<'_>,
    depth: usize,
    opening: Sign,
    closing: Sign,
) -> Result<Expr, Stop>
    ensures { Reads (spec.bracketed (spec.expression depth) opening closing reader.old)
        result reader.new }
{
    reader.sign(opening)?;
    let inner = expression_at(alloc, reader, depth, LOOSEST)?;
    reader.sign(closing)?;
    Ok(inner)
}

/// One argument more, behind a `,`.
#[cycle(expression)]
#[tactic(auto, unfolding(crate::specs::ReadingExpressions::argument))]
fn argument(alloc: Global, reader: &mut Reader<'_>, depth: usize) -> Result<Expr, Stop>
    ensures { Reads (spec.argument (spec.expression depth) reader.old) result reader.new }
{
    reader.sign(Sign::Comma)?;
    expression_at(alloc, reader, depth, LOOSEST)
}

/// Arguments with `,` between them, up to the bracket that closes them.
#[cycle(expression)]
#[tactic(auto, unfolding(crate::specs::ReadingExpressions::arguments))]
fn arguments(alloc: Global, reader: &mut Reader<'_>, depth: usize) -> Result<Items<Expr>, Stop>
    ensures { Reads (spec.arguments (spec.expression depth) reader.old) result reader.new }
{
    let mut found = Items::new(alloc);
    if reader.sees_sign(Sign::CloseRound) {
        return Ok(found);
    }
    found.push(expression_at(alloc, reader, depth, LOOSEST)?)?;
    for _turn in 0..reader.left() {
        if !reader.sees_sign(Sign::Comma) {
            return Ok(found);
        }
        found.push(argument(alloc, reader, depth)?)?;
    }
    Ok(found)
}

/// What begins with a name: a field, a cell, a call, or the name alone.
#[cycle(expression)]
#[tactic(auto, unfolding(crate::specs::ReadingExpressions::named, crate::specs::ReadingExpressions::behind_name, crate::specs::ReadingExpressions::cell, crate::specs::ReadingExpressions::call))]
fn named(alloc: Global, reader: &mut Reader<'_>, depth: usize) -> Result<Expr, Stop>
    ensures { Reads (spec.named (spec.expression depth) reader.old) result reader.new }
{
    let name = reader.name(alloc)?;
    if reader.sees_sign(Sign::Dot) {
        field(alloc, reader, name)
    } else if reader.sees_sign(Sign::OpenSquare) {
        let index = bracketed(alloc, reader, depth, Sign::OpenSquare, Sign::CloseSquare)?;
        Ok(Expr::Cell(name, Boxed::new(alloc, index)?))
    } else if reader.sees_sign(Sign::OpenRound) {
        reader.sign(Sign::OpenRound)?;
        let arguments = arguments(alloc, reader, depth)?;
        reader.sign(Sign::CloseRound)?;
        Ok(Expr::Call(name, arguments))
    } else {
        Ok(Expr::Word(name))
    }
}

/// A number, an expression in round brackets, or what begins with a name.
#[cycle(expression)]
#[tactic(auto, unfolding(crate::specs::ReadingExpressions::primary))]
fn primary(alloc: Global, reader: &mut Reader<'_>, depth: usize) -> Result<Expr, Stop>
    ensures { Reads (spec.primary (spec.expression depth) reader.old) result reader.new }
{
    if reader.sees_number() {
        Ok(Expr::Number(reader.number()?))
    } else if reader.sees_sign(Sign::OpenRound) {
        let inner = bracketed(alloc, reader, depth, Sign::OpenRound, Sign::CloseRound)?;
        Ok(Expr::Group(Boxed::new(alloc, inner)?))
    } else {
        named(alloc, reader, depth)
    }
}

/// A prefix operator and its operand, or a form without operators.
#[cycle(expression)]
#[tactic(auto, unfolding(crate::specs::ReadingExpressions::operand))]
fn operand(alloc: Global, reader: &mut Reader<'_>, depth: usize) -> Result<Expr, Stop>
    ensures { Reads (spec.operand (spec.expression_at depth 0) (spec.expression depth) reader.old)
        result reader.new }
{
    if reader.sees_unary() {
        let op = reader.unary()?;
        let operand = expression_at(alloc, reader, depth, 0)?;
        Ok(one(alloc, op, operand)?)
    } else {
        primary(alloc, reader, depth)
    }
}

/// One operator of a precedence level more, and what stands on its right.
#[cycle(expression)]
#[tactic(auto, unfolding(crate::specs::ReadingExpressions::joined))]
fn joined(
    alloc: Global,
    reader: &mut Reader<'_>,
    depth: usize,
    below: usize,
    left: Expr,
) -> Result<Expr, Stop>
    requires { below < 10 }
    ensures { Reads
        (spec.joined (spec.tier (spec.expression_at depth) below) (10 - below) left reader.old)
        result reader.new }
{
    let op = reader.binary(10 - below)?;
    let right = tier(alloc, reader, depth, below)?;
    Ok(two(alloc, op, left, right)?)
}

/// Goes on from an expression by operators of the precedence level above
/// `below` others.
#[cycle(expression)]
#[tactic(auto, unfolding(crate::specs::ReadingExpressions::chain))]
fn chain(
    alloc: Global,
    reader: &mut Reader<'_>,
    depth: usize,
    below: usize,
    first: Expr,
) -> Result<Expr, Stop>
    requires { below < 10 }
    ensures { Reads
        (spec.chain (spec.tier (spec.expression_at depth) below) (10 - below) first reader.old)
        result reader.new }
{
    let mut left = first;
    for _turn in 0..reader.left() {
        if !reader.sees_binary(10 - below) {
            return Ok(left);
        }
        left = joined(alloc, reader, depth, below, left)?;
    }
    Ok(left)
}

/// `?`, an expression, `:` and an expression behind a condition, or nothing.
#[cycle(expression)]
#[tactic(auto, unfolding(crate::specs::ReadingExpressions::pick))]
fn pick(alloc: Global, reader: &mut Reader<'_>, depth: usize, cond: Expr) -> Result<Expr, Stop>
    ensures { Reads (spec.pick (spec.expression depth) cond reader.old) result reader.new }
{
    if !reader.sees_sign(Sign::Question) {
        return Ok(cond);
    }
    reader.sign(Sign::Question)?;
    let then = expression_at(alloc, reader, depth, LOOSEST)?;
    reader.sign(Sign::Colon)?;
    let other = expression_at(alloc, reader, depth, LOOSEST)?;
    Ok(pick_of(alloc, cond, then, other)?)
}

/// What stands behind an expression with so many precedence levels below its own, where it
/// may stand one level above.
#[cycle(expression)]
fn behind_level(
    alloc: Global,
    reader: &mut Reader<'_>,
    depth: usize,
    below: usize,
    left: Expr,
) -> Result<Expr, Stop>
    requires { below ≤ 10 }
    ensures { Reads (spec.behind_level (spec.expression_at depth)
        (spec.tier (spec.expression_at depth) below) below left reader.old) result reader.new }
{
    if below == LOOSEST - 1 {
        pick(alloc, reader, depth, left)
    } else {
        chain(alloc, reader, depth, below, left)
    }
}

/// An expression with so many precedence levels below its own: what the lowest level reads,
/// and what stands behind it at each level above.
#[cycle(expression)]
fn tier(alloc: Global, reader: &mut Reader<'_>, depth: usize, below: usize) -> Result<Expr, Stop>
    requires { below ≤ 11 }
    ensures { Reads (spec.tier (spec.expression_at depth) below reader.old) result reader.new }
{
    let mut left = operand(alloc, reader, depth)?;
    for level in 0..below {
        left = behind_level(alloc, reader, depth, level, left)?;
    }
    Ok(left)
}

/// An expression with so many precedence levels below its own, and with fewer than `depth` forms within forms.
#[cycle(expression)]
fn expression_at(
    alloc: Global,
    reader: &mut Reader<'_>,
    depth: usize,
    below: usize,
) -> Result<Expr, Stop>
    requires { below ≤ 11 }
    ensures { Reads (spec.expression_at depth below reader.old) result reader.new }
{
    if depth == 0 {
        return Err(Stop::Syntax);
    }
    tier(alloc, reader, depth - 1, below)
}

/// Any expression with fewer than `depth` forms within forms; each takes a token.
pub(crate) fn expression(alloc: Global, reader: &mut Reader<'_>, depth: usize) -> Result<Expr, Stop>
    ensures { Reads (spec.expression depth reader.old) result reader.new }
{
    expression_at(alloc, reader, depth, LOOSEST)
}
