//! The checks of lengths and counts.

ghost use Rattle.std.specs.Prelude.{◌≡◌, ◌++◌, ◌+◌, ◌*◌, ◌≤◌, ◌<◌, ◌^◌, ℕ, length, sum};
ghost use Rattle.std.specs.Prelude.{flat_map, OnOk, IfErr, false, nat_lt};
ghost use Rattle.domino_tree.specs.Value.{item_define, size_value, length_value};
ghost use Rattle.domino_names.specs.Checks.{FirstBadLength, NoBadLength, FirstTooMany, NoTooMany};
ghost use Rattle.domino_names.specs.Checks.{IsTooMany, bad_of, bad_length, item_name, limit};
ghost use Rattle.domino_names.specs.First.{FirstFault, NoFault, IfRefused};
ghost use Rattle.domino_names.specs.Symbols.{IsNumbered, HasNumbers, BadLengthIn};
ghost use Rattle.domino_names.specs.Symbols.{defines_in, item_lengths, lengths_in};

use crate::copies::copy_name;
use crate::fault::{CheckFault, What};
use crate::symbol_table::Symbols;
use domino_tree::{Item, Program, Size};
use mp5_words::Name;
use std::alloc::{AllocError, Global};

/// The most cells that an array has.
const MAX_LENGTH: i32 = 65536;

// A length, where it isn't from 1 to 65,536.
fn bad_of(length: i32) -> Option<i32>
    ensures { result ≡ bad_of length }
{
    if length < 1 || MAX_LENGTH < length {
        Some(length)
    } else {
        None
    }
}

/// The number of a size; 0 where its name isn't defined.
pub(crate) fn size_number(symbols: &Symbols<'_>, size: &Size) -> i32
    requires { IsNumbered symbols.now }
    ensures { result ≡ size_value (defines_in symbols.now) size.now }
{
    match size {
        Size::Number(number) => *number,
        Size::Word(name) => symbols.number_of(name).unwrap_or(0),
    }
}

// The length that an item declares, where it is such a one.
fn bad_length(symbols: &Symbols<'_>, item: &Item) -> Option<i32>
    requires { IsNumbered symbols.now }
    ensures { result ≡ bad_length (defines_in symbols.now) item.now }
{
    match item {
        Item::Array {
            length: Some(size),
            ..
        } => bad_of(size_number(symbols, size)),
        Item::Array { length: None, .. } | Item::Define { .. } => None,
    }
}

// The name that an item declares.
fn item_name(item: &Item) -> &Name
    ensures { result.now ≡ item_name item.now }
{
    match item {
        Item::Define { name, .. } | Item::Array { name, .. } => name,
    }
}

// Whether each length that these items declare is from 1 to 65,536.
fn check_items(alloc: Global, items: &[Item], symbols: &Symbols<'_>) -> Result<(), CheckFault>
    requires { IsNumbered symbols.now }
    ensures passes { OnOk result (NoFault (BadLengthIn symbols.now) items.now) }
    ensures refuses { IfRefused result (FirstFault (BadLengthIn symbols.now) items.now) }
{
    for item in items {
        if let Some(length) = bad_length(symbols, item) {
            let name = copy_name(alloc, item_name(item))?;
            return Err(CheckFault::BadLength(name, length));
        }
    }
    Ok(())
}

/// Whether each declared length is from 1 to 65,536.
pub(crate) fn check_lengths(
    alloc: Global,
    program: &Program,
    symbols: &Symbols<'_>,
) -> Result<(), CheckFault>
    requires { HasNumbers symbols.now program.now }
    ensures passes { OnOk result (NoBadLength program.now) }
    ensures refuses { IfRefused result (FirstBadLength program.now) }
{
    check_items(alloc, program.before.as_slice(), symbols)?;
    check_items(alloc, program.after.as_slice(), symbols)
}

// The most that there may be.
fn limit(what: What) -> u64
    ensures { result ≡ limit what }
{
    match what {
        What::Defines => 64,
        What::Fields => 32,
        What::Arrays => 16,
        What::Cells => 262_144,
    }
}

// Whether there are no more than there may be.
fn check_count(what: What, count: u64) -> Result<(), CheckFault>
    ensures passes { OnOk result (nat_lt (limit what) count ≡ false) }
    ensures refuses { IfErr result (IsTooMany what count) }
{
    if limit(what) < count {
        return Err(CheckFault::TooMany(what, count));
    }
    Ok(())
}

// How many of these items are definitions.
fn define_count(items: &[Item]) -> usize
    ensures count { result ≡ length (flat_map item_define items.now) }
    ensures within { result ≤ length items.now }
{
    let mut count: usize = 0;
    for item in items {
        if let Item::Define { .. } = item {
            count += 1;
        }
    }
    count
}

/// How many cells an array of this declared length has; a register has one.
pub(crate) fn length_of(symbols: &Symbols<'_>, length: &Option<Size>) -> u32
    requires { IsNumbered symbols.now }
    ensures { result ≡ length_value (defines_in symbols.now) length.now }
{
    match length {
        None => 1,
        Some(size) => u32::try_from(size_number(symbols, size)).unwrap_or(0),
    }
}

// How many cells the array has that an item declares, if it does.
fn push_length(symbols: &Symbols<'_>, item: &Item, out: &mut Vec<u32>) -> Result<(), AllocError>
    requires { IsNumbered symbols.now }
    ensures { OnOk result (out.new.items ≡ out.old.items ++ item_lengths symbols.now item.now) }
{
    match item {
        Item::Define { .. } => Ok(()),
        Item::Array { length, .. } => {
            out.push(length_of(symbols, length))?;
            Ok(())
        }
    }
}

// How many cells each of the arrays that these items declare has.
fn push_lengths(symbols: &Symbols<'_>, items: &[Item], out: &mut Vec<u32>) -> Result<(), AllocError>
    requires { IsNumbered symbols.now }
    ensures { OnOk result (out.new.items ≡ out.old.items ++ lengths_in symbols.now items.now) }
{
    for item in items {
        push_length(symbols, item, out)?;
    }
    Ok(())
}

// The sum of a few lengths.
fn total(lengths: &[u32]) -> u64
    requires { length lengths.now ≤ 16 }
    ensures { result ≡ sum lengths.now }
{
    let mut total: u64 = 0;
    for length in lengths {
        total += u64::from(*length);
    }
    total
}

/// Whether there are no more defined names, fields, arrays and cells than there may be.
pub(crate) fn check_counts(
    alloc: Global,
    program: &Program,
    symbols: &Symbols<'_>,
) -> Result<(), CheckFault>
    requires { HasNumbers symbols.now program.now }
    ensures passes { OnOk result (NoTooMany program.now) }
    ensures refuses { IfRefused result (FirstTooMany program.now) }
{
    let before = program.before.as_slice();
    let after = program.after.as_slice();
    let defines = define_count(before) as u64 + define_count(after) as u64;
    check_count(What::Defines, defines)?;
    check_count(What::Fields, program.packet.fields.len() as u64)?;
    let mut lengths = Vec::new(alloc);
    push_lengths(symbols, before, &mut lengths)?;
    push_lengths(symbols, after, &mut lengths)?;
    check_count(What::Arrays, lengths.len() as u64)?;
    check_count(What::Cells, total(&lengths))
}
