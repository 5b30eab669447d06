//! The canonical text of a program.
ghost use Rattle.std.specs.Prelude.{◌≡◌, ◌++◌, ◌∷◌, [], IfOk, OnOk, Some, flat_map, map, length, Option, List};
ghost use Rattle.domino_tree.specs.declared.token.Token.TheVariants as Token;
ghost use Rattle.domino_tree.specs.declared.token.Sign.TheVariants.{Assign, Semicolon};
ghost use Rattle.domino_tree.specs.Text.{keyword_text, added, written, written_line, item_line, canonical_tokens, text_of};
ghost use Rattle.domino_tree.specs.Derives.{Derives};
ghost use Rattle.domino_tree.specs.Grammar.{spelled, in_round, in_square, block_tokens, separated, with_commas, field_tokens, target_tokens, stmt_tokens, arm_tokens, with_elses, chained, last_block, size_tokens, length_tokens, start_tokens, item_tokens, declaration, packet_tokens, function_tokens};

use crate::expr::Expr;
use crate::operators::{sign_before, sign_between};
use crate::program::{Arm, Function, Item, PacketDecl, Program, Size, Start, Stmt, Target};
use crate::token::{Keyword, Sign};
use itoa::Buffer;
use mp5_words::{Name, NoMemory};
use std::alloc::{AllocError, Global};

// A space and a word at the end of the text.
fn put_word(out: &mut Vec<u8>, word: &[u8]) -> Result<(), AllocError>
    ensures { OnOk result (out.new.items ≡ out.old.items ++ (32 ∷ word.now)) }
{
    out.push(b' ')?;
    out.extend_from_slice(word)
}

// The letters of a reserved name.
fn keyword_bytes(keyword: Keyword) -> &'static str
    ensures { result.now ≡ keyword_text keyword }
{
    match keyword {
        Keyword::Struct => "struct",
        Keyword::Int => "int",
        Keyword::Void => "void",
        Keyword::If => "if",
        Keyword::Else => "else",
    }
}

fn put_sign(out: &mut Vec<u8>, sign: Sign) -> Result<(), AllocError>
    ensures { OnOk result (out.new.items ≡ added out.old.items (Token.Sign sign)) }
{
    put_word(out, sign.text().as_bytes())
}

fn put_keyword(out: &mut Vec<u8>, keyword: Keyword) -> Result<(), AllocError>
    ensures { OnOk result (out.new.items ≡ added out.old.items (Token.Keyword keyword)) }
{
    put_word(out, keyword_bytes(keyword).as_bytes())
}

fn put_name(out: &mut Vec<u8>, name: &Name) -> Result<(), AllocError>
    ensures { OnOk result (out.new.items ≡ added out.old.items (Token.Name name.now)) }
{
    put_word(out, name.bytes())
}

fn put_number(out: &mut Vec<u8>, number: i32) -> Result<(), AllocError>
    ensures { OnOk result (out.new.items ≡ added out.old.items (Token.Number number)) }
{
    let mut digits = Buffer::new();
    put_word(out, digits.format(number.cast_unsigned()).as_bytes())
}

fn put_field(out: &mut Vec<u8>, packet: &Name, field: &Name) -> Result<(), AllocError>
    ensures { OnOk result (out.new.items ≡ written out.old.items (field_tokens packet.now field.now)) }
{
    put_name(out, packet)?;
    put_sign(out, Sign::Dot)?;
    put_name(out, field)
}

#[cycle(expression)]
fn put_expr(out: &mut Vec<u8>, expr: &Expr) -> Result<(), AllocError>
    ensures { OnOk result (out.new.items ≡ written out.old.items (spelled expr.now)) }
{
    match expr {
        Expr::Number(number) => put_number(out, *number),
        Expr::Word(name) => put_name(out, name),
        Expr::Field(packet, field) => put_field(out, packet, field),
        Expr::Cell(array, index) => put_cell(out, array, index.get()),
        Expr::One(op, a) => {
            put_sign(out, sign_before(*op))?;
            put_expr(out, a.get())
        }
        Expr::Two(op, a, b) => {
            put_expr(out, a.get())?;
            put_sign(out, sign_between(*op))?;
            put_expr(out, b.get())
        }
        Expr::Pick(cond, a, b) => {
            put_expr(out, cond.get())?;
            put_sign(out, Sign::Question)?;
            put_expr(out, a.get())?;
            put_sign(out, Sign::Colon)?;
            put_expr(out, b.get())
        }
        Expr::Call(function, args) => put_call(out, function, args.as_slice()),
        Expr::Group(a) => put_group(out, a.get()),
    }
}

// A cell: the array's name, and the index in square brackets.
#[cycle(expression)]
fn put_cell(out: &mut Vec<u8>, array: &Name, index: &Expr) -> Result<(), AllocError>
    ensures { OnOk result (out.new.items ≡ written out.old.items (Token.Name array.now ∷ in_square (spelled index.now))) }
{
    put_name(out, array)?;
    put_sign(out, Sign::OpenSquare)?;
    put_expr(out, index)?;
    put_sign(out, Sign::CloseSquare)
}

// An expression in round brackets.
#[cycle(expression)]
fn put_group(out: &mut Vec<u8>, expr: &Expr) -> Result<(), AllocError>
    ensures { OnOk result (out.new.items ≡ written out.old.items (in_round (spelled expr.now))) }
{
    put_sign(out, Sign::OpenRound)?;
    put_expr(out, expr)?;
    put_sign(out, Sign::CloseRound)
}

// A call: the function's name, and the arguments in round brackets.
#[cycle(expression)]
fn put_call(out: &mut Vec<u8>, function: &Name, args: &[Expr]) -> Result<(), AllocError>
    ensures { OnOk result (out.new.items ≡ written out.old.items (Token.Name function.now ∷ in_round (separated (map spelled args.now)))) }
{
    put_name(out, function)?;
    put_sign(out, Sign::OpenRound)?;
    put_args(out, args)?;
    put_sign(out, Sign::CloseRound)
}

// The arguments with `,` between them.
#[cycle(expression)]
fn put_args(out: &mut Vec<u8>, args: &[Expr]) -> Result<(), AllocError>
    ensures { OnOk result (out.new.items ≡ written out.old.items (separated (map spelled args.now))) }
{
    for (i, arg) in args.iter().enumerate() {
        if i > 0 {
            put_sign(out, Sign::Comma)?;
        }
        put_expr(out, arg)?;
    }
    Ok(())
}

fn put_target(out: &mut Vec<u8>, target: &Target) -> Result<(), AllocError>
    ensures { OnOk result (out.new.items ≡ written out.old.items (target_tokens target.now)) }
{
    match target {
        Target::Word(name) => put_name(out, name),
        Target::Field(packet, field) => put_field(out, packet, field),
        Target::Cell(array, index) => put_cell(out, array, index),
    }
}

#[cycle(statement)]
fn put_stmt(out: &mut Vec<u8>, stmt: &Stmt) -> Result<(), AllocError>
    ensures { OnOk result (out.new.items ≡ written out.old.items (stmt_tokens stmt.now)) }
{
    match stmt {
        Stmt::Set(target, expr) => put_assignment(out, target, expr),
        Stmt::If(arms, None) => put_arms(out, arms.as_slice()),
        Stmt::If(arms, Some(body)) => {
            put_arms(out, arms.as_slice())?;
            put_keyword(out, Keyword::Else)?;
            put_block(out, body.as_slice())
        }
    }
}

// An assignment: a target, `=`, an expression, `;`.
fn put_assignment(out: &mut Vec<u8>, target: &Target, expr: &Expr) -> Result<(), AllocError>
    ensures { OnOk result (out.new.items ≡ written out.old.items (target_tokens target.now ++ (Token.Sign Assign ∷ (spelled expr.now ++ (Token.Sign Semicolon ∷ []))))) }
{
    put_target(out, target)?;
    put_sign(out, Sign::Assign)?;
    put_expr(out, expr)?;
    put_sign(out, Sign::Semicolon)
}

// The arms of a chain with `else` between them.
#[cycle(statement)]
fn put_arms(out: &mut Vec<u8>, arms: &[Arm]) -> Result<(), AllocError>
    ensures { OnOk result (out.new.items ≡ written out.old.items (chained (map arm_tokens arms.now))) }
{
    for (i, arm) in arms.iter().enumerate() {
        if i > 0 {
            put_keyword(out, Keyword::Else)?;
        }
        put_arm(out, arm)?;
    }
    Ok(())
}

// `if`, the condition in round brackets, and the block.
#[cycle(statement)]
fn put_arm(out: &mut Vec<u8>, arm: &Arm) -> Result<(), AllocError>
    ensures { OnOk result (out.new.items ≡ written out.old.items (arm_tokens arm.now)) }
{
    put_keyword(out, Keyword::If)?;
    put_group(out, &arm.cond)?;
    put_block(out, arm.body.as_slice())
}

// Statements in braces.
#[cycle(statement)]
fn put_block(out: &mut Vec<u8>, body: &[Stmt]) -> Result<(), AllocError>
    ensures { OnOk result (out.new.items ≡ written out.old.items (block_tokens (map stmt_tokens body.now))) }
{
    put_sign(out, Sign::OpenCurly)?;
    for stmt in body {
        put_stmt(out, stmt)?;
    }
    put_sign(out, Sign::CloseCurly)
}

fn put_size(out: &mut Vec<u8>, size: &Size) -> Result<(), AllocError>
    ensures { OnOk result (out.new.items ≡ written out.old.items (size_tokens size.now)) }
{
    match size {
        Size::Number(number) => put_number(out, *number),
        Size::Word(name) => put_name(out, name),
    }
}

// The length in square brackets, where there is one.
fn put_length(out: &mut Vec<u8>, length: &Option<Size>) -> Result<(), AllocError>
    ensures { OnOk result (out.new.items ≡ written out.old.items (length_tokens length.now)) }
{
    match length {
        None => Ok(()),
        Some(size) => {
            put_sign(out, Sign::OpenSquare)?;
            put_size(out, size)?;
            put_sign(out, Sign::CloseSquare)
        }
    }
}

// `=` and the start value, where there is one.
fn put_start(out: &mut Vec<u8>, start: &Start) -> Result<(), AllocError>
    ensures { OnOk result (out.new.items ≡ written out.old.items (start_tokens start.now)) }
{
    match start {
        Start::Absent => Ok(()),
        Start::Plain(size) => {
            put_sign(out, Sign::Assign)?;
            put_size(out, size)
        }
        Start::Braced(size) => {
            put_sign(out, Sign::Assign)?;
            put_sign(out, Sign::OpenCurly)?;
            put_size(out, size)?;
            put_sign(out, Sign::CloseCurly)
        }
    }
}

// A line of its own.
fn put_item(out: &mut Vec<u8>, item: &Item) -> Result<(), AllocError>
    ensures { OnOk result (out.new.items ≡ written_line out.old.items (item_tokens item.now)) }
{
    match item {
        Item::Define { name, value } => {
            out.extend_from_slice(b"#define")?;
            put_name(out, name)?;
            put_number(out, *value)?;
        }
        Item::Array {
            name,
            length,
            start,
        } => {
            out.extend_from_slice(b"int")?;
            put_name(out, name)?;
            put_length(out, length)?;
            put_start(out, start)?;
            put_sign(out, Sign::Semicolon)?;
        }
    }
    out.push(b'\n')?;
    Ok(())
}

fn put_items(out: &mut Vec<u8>, items: &[Item]) -> Result<(), AllocError>
    ensures { OnOk result (out.new.items ≡ out.old.items ++ flat_map item_line items.now) }
{
    for item in items {
        put_item(out, item)?;
    }
    Ok(())
}

// The fields' declarations, one after another.
fn put_fields(out: &mut Vec<u8>, fields: &[Name]) -> Result<(), AllocError>
    ensures { OnOk result (out.new.items ≡ written out.old.items (flat_map (λ name. declaration name []) fields.now)) }
{
    for field in fields {
        put_keyword(out, Keyword::Int)?;
        put_name(out, field)?;
        put_sign(out, Sign::Semicolon)?;
    }
    Ok(())
}

// A line of its own.
fn put_packet(out: &mut Vec<u8>, packet: &PacketDecl) -> Result<(), AllocError>
    ensures { OnOk result (out.new.items ≡ written_line out.old.items (packet_tokens packet.now)) }
{
    out.extend_from_slice(b"struct")?;
    put_name(out, &packet.name)?;
    put_sign(out, Sign::OpenCurly)?;
    put_fields(out, packet.fields.as_slice())?;
    put_sign(out, Sign::CloseCurly)?;
    put_sign(out, Sign::Semicolon)?;
    out.push(b'\n')?;
    Ok(())
}

// A line of its own.
fn put_function(out: &mut Vec<u8>, function: &Function) -> Result<(), AllocError>
    ensures { OnOk result (out.new.items ≡ written_line out.old.items (function_tokens function.now)) }
{
    out.extend_from_slice(b"void")?;
    put_name(out, &function.name)?;
    put_sign(out, Sign::OpenRound)?;
    put_keyword(out, Keyword::Struct)?;
    put_name(out, &function.of)?;
    put_name(out, &function.packet)?;
    put_sign(out, Sign::CloseRound)?;
    put_block(out, function.body.as_slice())?;
    out.push(b'\n')?;
    Ok(())
}

/// The canonical text of a program: its canonical tokens, each number an unsigned decimal, with a space
/// between. Each item, the struct and the function is a line of its own.
#[tactic(auto, using(crate::proofs::Canonical::canonical))]
pub fn print(alloc: Global, program: &Program) -> Result<Vec<u8>, NoMemory>
    ensures text { IfOk result (λ text. text.items ≡ text_of program.now) }
    // The grammar derives the canonical tokens to the program.
    ensures derives { Derives (canonical_tokens program.now) program.now }
{
    let mut out = Vec::new(alloc);
    put_items(&mut out, program.before.as_slice())?;
    put_packet(&mut out, &program.packet)?;
    put_items(&mut out, program.after.as_slice())?;
    put_function(&mut out, &program.function)?;
    Ok(out)
}

#[cfg(test)]
mod tests {
    use super::*;
    use mp5_words::Op2;
    use sqlite_items::{Boxed, Items};
    use std::test::Fail;

    fn named(alloc: Global, text: &str) -> Result<Name, AllocError>
        ensures { IfOk result (λ name. name ≡ text.now) }
    {
        Ok(Name::new(Vec::from_slice(alloc, text.as_bytes())?))
    }

    #[test]
    fn writes_statements(rt: HostRuntime) -> Result<(), Fail> {
        let alloc = rt.alloc();
        let left = Boxed::new(alloc, Expr::Word(named(alloc, "a")?))?;
        let right = Boxed::new(alloc, Expr::Number(-1))?;
        let value = Expr::Two(Op2::Shl, left, right);
        let mut out = Vec::new(alloc);
        put_stmt(
            &mut out,
            &Stmt::Set(Target::Word(named(alloc, "b")?), value),
        )?;
        assert_eq!(rt; out.as_slice(), b" b = a << 4294967295 ;".as_slice());
        Ok(())
    }

    #[test]
    #[tactic(auto, unfolding(crate::specs::Grammar::is_name))]
    fn prints_a_program(rt: HostRuntime) -> Result<(), Fail> {
        let alloc = rt.alloc();
        let packet = PacketDecl {
            name: named(alloc, "P")?,
            fields: Items::new(alloc),
        };
        let function = Function {
            name: named(alloc, "f")?,
            of: named(alloc, "P")?,
            packet: named(alloc, "p")?,
            body: Items::new(alloc),
        };
        let program = Program {
            before: Items::new(alloc),
            packet,
            after: Items::new(alloc),
            function,
        };
        match print(alloc, &program) {
            Ok(text) => {
                let want = "struct P { } ;\nvoid f ( struct P p ) { }\n";
                assert_eq!(rt; text.as_slice(), want.as_bytes());
            }
            Err(NoMemory) => return Err(AllocError.into()),
        }
        Ok(())
    }
}
