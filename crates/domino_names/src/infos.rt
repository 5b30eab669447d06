//! What the names of a program stand for.

ghost use Rattle.std.specs.Prelude.{◌≡◌, ◌++◌, OnOk, IfOk};
ghost use Rattle.domino_tree.specs.Value.{start_value};
ghost use Rattle.domino_names.specs.Infos.{item_info, infos_of, is_scalar};
ghost use Rattle.domino_names.specs.Symbols.{IsNumbered, HasNumbers, defines_in, infos_in};

use crate::copies::copy_name;
use crate::size_checks::{length_of, size_number};
use crate::symbol_table::Symbols;
use domino_tree::{Item, Program, Start};
use mp5_words::Name;
use sqlite_items::Items;
use std::alloc::{AllocError, Global};

/// What is declared of a register array. A register is an array of one cell, declared without a length.
#[derive(Debug, Drop)]
pub struct ArrayInfo {
    pub name: Name,
    /// How many cells it has.
    pub length: u32,
    /// Whether it was declared without a length.
    pub scalar: bool,
    /// The word that each cell starts at.
    pub start: i32,
}

// The word that each cell starts at.
fn start_of(symbols: &Symbols<'_>, start: &Start) -> i32
    requires { IsNumbered symbols.now }
    ensures { result ≡ start_value (defines_in symbols.now) start.now }
{
    match start {
        Start::Absent => 0,
        Start::Plain(size) | Start::Braced(size) => size_number(symbols, size),
    }
}

// The array that an item declares, if it does, goes to the end of the list.
fn push_info(
    alloc: Global,
    symbols: &Symbols<'_>,
    item: &Item,
    out: &mut Items<ArrayInfo>,
) -> Result<(), AllocError>
    requires { IsNumbered symbols.now }
    ensures { OnOk result (out.new ≡ out.old ++ item_info (defines_in symbols.now) item.now) }
{
    match item {
        Item::Define { .. } => Ok(()),
        Item::Array {
            name,
            length,
            start,
        } => out.push(ArrayInfo {
            name: copy_name(alloc, name)?,
            length: length_of(symbols, length),
            scalar: length.is_none(),
            start: start_of(symbols, start),
        }),
    }
}

// The arrays that these items declare go to the end of the list.
fn push_infos(
    alloc: Global,
    symbols: &Symbols<'_>,
    items: &[Item],
    out: &mut Items<ArrayInfo>,
) -> Result<(), AllocError>
    requires { IsNumbered symbols.now }
    ensures { OnOk result (out.new ≡ out.old ++ infos_in symbols.now items.now) }
{
    for item in items {
        push_info(alloc, symbols, item, out)?;
    }
    Ok(())
}

/// The arrays of a program, in order of declaration.
pub fn infos_of(
    alloc: Global,
    program: &Program,
    symbols: &Symbols<'_>,
) -> Result<Items<ArrayInfo>, AllocError>
    requires { HasNumbers symbols.now program.now }
    ensures { IfOk result (λ infos. infos ≡ infos_of program.now) }
{
    let mut out = Items::new(alloc);
    push_infos(alloc, symbols, program.before.as_slice(), &mut out)?;
    push_infos(alloc, symbols, program.after.as_slice(), &mut out)?;
    Ok(out)
}
