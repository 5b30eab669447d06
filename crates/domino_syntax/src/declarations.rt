//! The parsers of items and of the struct.

ghost use Rattle.std.specs.Prelude.{◌≡◌};
ghost use Rattle.domino_syntax.specs.ReadingPrograms as spec;
ghost use Rattle.domino_syntax.specs.Parsers.{Reads, first};

use crate::reader::{Reader, Stop};
use domino_tree::{Item, Keyword, PacketDecl, Sign, Size, Start};
use mp5_words::{Name, Op1, apply1};
use sqlite_items::Items;
use std::alloc::Global;

/// `-` and a number.
#[tactic(auto, unfolding(crate::specs::ReadingPrograms::negated))]
fn negated(reader: &mut Reader<'_>) -> Result<i32, Stop>
    ensures { Reads (spec.negated reader.old) result reader.new }
{
    reader.sign(Sign::Minus)?;
    let number = reader.number()?;
    Ok(apply1(Op1::Neg, number))
}

/// A number, or a negated one.
#[tactic(auto, unfolding(crate::specs::ReadingPrograms::value))]
fn value(reader: &mut Reader<'_>) -> Result<i32, Stop>
    ensures { Reads (spec.value reader.old) result reader.new }
{
    if reader.sees_sign(Sign::Minus) {
        negated(reader)
    } else {
        reader.number()
    }
}

/// A defined name.
#[tactic(auto, unfolding(crate::specs::ReadingPrograms::word))]
fn word(alloc: Global, reader: &mut Reader<'_>) -> Result<Size, Stop>
    ensures { Reads (spec.word reader.old) result reader.new }
{
    Ok(Size::Word(reader.name(alloc)?))
}

/// An entry of a start value: a name, or a value.
#[tactic(auto, unfolding(crate::specs::ReadingPrograms::entry))]
fn entry(alloc: Global, reader: &mut Reader<'_>) -> Result<Size, Stop>
    ensures { Reads (spec.entry reader.old) result reader.new }
{
    if reader.sees_name() {
        return word(alloc, reader);
    }
    Ok(Size::Number(value(reader)?))
}

/// A size: a name, or a number.
#[tactic(auto, unfolding(crate::specs::ReadingPrograms::size))]
fn size(alloc: Global, reader: &mut Reader<'_>) -> Result<Size, Stop>
    ensures { Reads (spec.size reader.old) result reader.new }
{
    if reader.sees_name() {
        return word(alloc, reader);
    }
    Ok(Size::Number(reader.number()?))
}

/// A length in square brackets.
#[tactic(auto, unfolding(crate::specs::ReadingPrograms::bracketed))]
fn bracketed(alloc: Global, reader: &mut Reader<'_>) -> Result<Option<Size>, Stop>
    ensures { Reads (spec.bracketed reader.old) result reader.new }
{
    reader.sign(Sign::OpenSquare)?;
    let size = size(alloc, reader)?;
    reader.sign(Sign::CloseSquare)?;
    Ok(Some(size))
}

/// The length of an array, or nothing.
#[tactic(auto, unfolding(crate::specs::ReadingPrograms::cells))]
fn cells(alloc: Global, reader: &mut Reader<'_>) -> Result<Option<Size>, Stop>
    ensures { Reads (spec.cells reader.old) result reader.new }
{
    if reader.sees_sign(Sign::OpenSquare) {
        bracketed(alloc, reader)
    } else {
        Ok(None)
    }
}

/// An entry in braces.
#[tactic(auto, unfolding(crate::specs::ReadingPrograms::braced))]
fn braced(alloc: Global, reader: &mut Reader<'_>) -> Result<Start, Stop>
    ensures { Reads (spec.braced reader.old) result reader.new }
{
    reader.sign(Sign::OpenCurly)?;
    let entry = entry(alloc, reader)?;
    reader.sign(Sign::CloseCurly)?;
    Ok(Start::Braced(entry))
}

/// An entry without braces.
#[tactic(auto, unfolding(crate::specs::ReadingPrograms::plain))]
fn plain(alloc: Global, reader: &mut Reader<'_>) -> Result<Start, Stop>
    ensures { Reads (spec.plain reader.old) result reader.new }
{
    Ok(Start::Plain(entry(alloc, reader)?))
}

/// The start value of a register, or nothing.
#[tactic(auto, unfolding(crate::specs::ReadingPrograms::start))]
fn start(alloc: Global, reader: &mut Reader<'_>) -> Result<Start, Stop>
    ensures { Reads (spec.start reader.old) result reader.new }
{
    if !reader.sees_sign(Sign::Assign) {
        return Ok(Start::Absent);
    }
    reader.sign(Sign::Assign)?;
    if reader.sees_sign(Sign::OpenCurly) {
        braced(alloc, reader)
    } else {
        plain(alloc, reader)
    }
}

/// `#define`, a name, and a value.
#[tactic(auto, unfolding(crate::specs::ReadingPrograms::definition))]
fn definition(alloc: Global, reader: &mut Reader<'_>) -> Result<Item, Stop>
    ensures { Reads (spec.definition reader.old) result reader.new }
{
    reader.define()?;
    let name = reader.name(alloc)?;
    let value = value(reader)?;
    Ok(Item::Define { name, value })
}

/// `int`, a name, the length, the start value, `;`
#[tactic(auto, unfolding(crate::specs::ReadingPrograms::register))]
fn register(alloc: Global, reader: &mut Reader<'_>) -> Result<Item, Stop>
    ensures { Reads (spec.register reader.old) result reader.new }
{
    reader.keyword(Keyword::Int)?;
    let name = reader.name(alloc)?;
    let length = cells(alloc, reader)?;
    let start = start(alloc, reader)?;
    reader.sign(Sign::Semicolon)?;
    Ok(Item::Array {
        name,
        length,
        start,
    })
}

/// A definition, or a register.
#[tactic(auto, unfolding(crate::specs::ReadingPrograms::item))]
fn item(alloc: Global, reader: &mut Reader<'_>) -> Result<Item, Stop>
    ensures { Reads (spec.item reader.old) result reader.new }
{
    if reader.sees_define() {
        definition(alloc, reader)
    } else {
        register(alloc, reader)
    }
}

/// Whether an item begins with the next token.
fn begins_item(reader: &Reader<'_>) -> bool
    ensures { result ≡ spec.begins_item (first reader.now) }
{
    reader.sees_define() || reader.sees_keyword(Keyword::Int)
}

/// The items before or after the struct.
#[tactic(auto, unfolding(crate::specs::ReadingPrograms::items, crate::specs::Parsers::repeat))]
pub(crate) fn items(alloc: Global, reader: &mut Reader<'_>) -> Result<Items<Item>, Stop>
    ensures { Reads (spec.items reader.old) result reader.new }
{
    let mut found = Items::new(alloc);
    for _turn in 0..reader.left() {
        if !begins_item(reader) {
            return Ok(found);
        }
        found.push(item(alloc, reader)?)?;
    }
    Ok(found)
}

/// `int`, a name, `;`
#[tactic(auto, unfolding(crate::specs::ReadingPrograms::field))]
fn field(alloc: Global, reader: &mut Reader<'_>) -> Result<Name, Stop>
    ensures { Reads (spec.field reader.old) result reader.new }
{
    reader.keyword(Keyword::Int)?;
    let name = reader.name(alloc)?;
    reader.sign(Sign::Semicolon)?;
    Ok(name)
}

/// The fields of the packet.
#[tactic(auto, unfolding(crate::specs::ReadingPrograms::fields, crate::specs::Parsers::repeat))]
fn fields(alloc: Global, reader: &mut Reader<'_>) -> Result<Items<Name>, Stop>
    ensures { Reads (spec.fields reader.old) result reader.new }
{
    let mut found = Items::new(alloc);
    for _turn in 0..reader.left() {
        if !reader.sees_keyword(Keyword::Int) {
            return Ok(found);
        }
        found.push(field(alloc, reader)?)?;
    }
    Ok(found)
}

/// The packet's struct.
#[tactic(auto, unfolding(crate::specs::ReadingPrograms::packet))]
pub(crate) fn packet(alloc: Global, reader: &mut Reader<'_>) -> Result<PacketDecl, Stop>
    ensures { Reads (spec.packet reader.old) result reader.new }
{
    reader.keyword(Keyword::Struct)?;
    let name = reader.name(alloc)?;
    reader.sign(Sign::OpenCurly)?;
    let fields = fields(alloc, reader)?;
    reader.sign(Sign::CloseCurly)?;
    reader.sign(Sign::Semicolon)?;
    Ok(PacketDecl { name, fields })
}
