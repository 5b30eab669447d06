//! The declarations of a program, in text order.

ghost use Rattle.std.specs.Prelude.{◌≡◌, ◌≤◌, ◌<◌, ◌+◌, ◌^◌, ◌++◌, ◌∷◌, [], length, IfOk, OnOk};
ghost use Rattle.domino_names.specs.Symbols.{stands, next_array, arrays_after, item_symbol};
ghost use Rattle.domino_names.specs.Symbols.{item_symbols, field_symbols, packet_symbols};
ghost use Rattle.domino_names.specs.Symbols.{function_symbols, text_symbols};

use crate::role::Symbol;
use domino_tree::{Function, Item, PacketDecl, Program};
use mp5_words::Name;
use std::alloc::{AllocError, Global};
use std::marker::Model;

/// A declared name of a program, and what it stands for.
#[derive(Drop)]
pub(crate) struct Declaration<'a> {
    name: &'a Name,
    symbol: Symbol,
}

impl<'a> Model for Declaration<'a> {
    ghost use Rattle.domino_names.specs.Symbols.{Named};

    ghost Value = { Named };

    ghost view = { λ d. record { name = d.name.now; symbol = d.symbol } };
}

impl<'a> Declaration<'a> {
    /// The name.
    pub(crate) fn name(&self) -> &'a Name
        ensures { result.now ≡ self.now.name }
    {
        self.name
    }

    /// What it stands for.
    pub(crate) fn symbol(&self) -> Symbol
        ensures { result ≡ self.now.symbol }
    {
        self.symbol
    }
}

// A declared name at the end of the list.
fn push<'a>(
    out: &mut Vec<Declaration<'a>>,
    name: &'a Name,
    symbol: Symbol,
) -> Result<(), AllocError>
    ensures { OnOk result (out.new.items ≡ out.old.items ++ stands name.now symbol ∷ []) }
{
    out.push(Declaration { name, symbol })?;
    Ok(())
}

// What an item declares, behind so many arrays. Gives the number of the next array.
fn push_item<'a>(
    out: &mut Vec<Declaration<'a>>,
    arrays: usize,
    item: &'a Item,
) -> Result<usize, AllocError>
    requires { arrays + 1 < 2 ^ 64 }
    ensures list { OnOk result (out.new.items ≡ out.old.items ++ item_symbol arrays item.now ∷ []) }
    ensures next { IfOk result (λ next. next ≡ next_array arrays item.now) }
    ensures within { IfOk result (λ next. next ≤ arrays + 1) }
{
    match item {
        Item::Define { name, value } => {
            push(out, name, Symbol::Define(*value))?;
            Ok(arrays)
        }
        Item::Array {
            name,
            length: None,
            ..
        } => {
            push(out, name, Symbol::Scalar(arrays))?;
            Ok(arrays + 1)
        }
        Item::Array {
            name,
            length: Some(_),
            ..
        } => {
            push(out, name, Symbol::Array(arrays))?;
            Ok(arrays + 1)
        }
    }
}

// What these items declare, behind so many arrays. Gives the number of the next array.
fn push_items<'a>(
    out: &mut Vec<Declaration<'a>>,
    arrays: usize,
    items: &'a [Item],
) -> Result<usize, AllocError>
    requires { arrays + length items.now < 2 ^ 64 }
    ensures list { OnOk result (out.new.items ≡ out.old.items ++ item_symbols arrays items.now) }
    ensures next { IfOk result (λ next. next ≡ arrays_after arrays items.now) }
    ensures within { IfOk result (λ next. next ≤ arrays + length items.now) }
{
    let mut next = arrays;
    for item in items {
        next = push_item(out, next, item)?;
    }
    Ok(next)
}

fn push_fields<'a>(out: &mut Vec<Declaration<'a>>, fields: &'a [Name]) -> Result<(), AllocError>
    ensures { OnOk result (out.new.items ≡ out.old.items ++ field_symbols 0 fields.now) }
{
    for (place, field) in fields.iter().enumerate() {
        push(out, field, Symbol::Field(place))?;
    }
    Ok(())
}

// The struct's name, and the fields.
fn push_packet<'a>(out: &mut Vec<Declaration<'a>>, packet: &'a PacketDecl) -> Result<(), AllocError>
    ensures { OnOk result (out.new.items ≡ out.old.items ++ packet_symbols packet.now) }
{
    push(out, &packet.name, Symbol::Struct)?;
    push_fields(out, packet.fields.as_slice())
}

// The function's own name, and its packet's.
fn push_function<'a>(
    out: &mut Vec<Declaration<'a>>,
    function: &'a Function,
) -> Result<(), AllocError>
    ensures { OnOk result (out.new.items ≡ out.old.items ++ function_symbols function.now) }
{
    push(out, &function.name, Symbol::Function)?;
    push(out, &function.packet, Symbol::Packet)
}

/// The declared names of a program, in text order.
pub(crate) fn declarations(
    alloc: Global,
    program: &Program,
) -> Result<Vec<Declaration<'_>>, AllocError>
    ensures { IfOk result (λ all. all.items ≡ text_symbols program.now) }
{
    let mut out = Vec::new(alloc);
    let arrays = push_items(&mut out, 0, program.before.as_slice())?;
    push_packet(&mut out, &program.packet)?;
    push_items(&mut out, arrays, program.after.as_slice())?;
    push_function(&mut out, &program.function)?;
    Ok(out)
}
