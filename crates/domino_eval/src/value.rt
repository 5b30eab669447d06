//! The value of an expression in numbers.
ghost use Rattle.std.specs.Prelude.{◌≡◌, ◌≤◌, ◌∷◌, [], ℕ, List, ℤ, map, flat_map, slice_set};
ghost use Rattle.domino_tree.specs.Value.{Store};
ghost use Rattle.mp5_words.specs.Words.{cell};
ghost use Rattle.mp5_words.specs.Cells.{word_at, cells_at, picked, touching, hash_all};
ghost use Rattle.domino_check.specs.NumberedMeaning.{indexing, plain_value, place, numbered_value, numbered_arrays};
ghost use Rattle.domino_eval.specs.Parts.{store};
ghost use Rattle.domino_eval.specs.Places.{marks, ArePlaces};

use domino_check::{Checked, CheckedExpr};
use mp5_words::{HashKind, apply1, apply2, cell_of, hash};
use sqlite_items::Items;

/// The word at a place; 0 past them all.
fn word_at(words: &[i32], place: usize) -> i32
    ensures { result ≡ word_at words.now place }
{
    words.get(place).copied().unwrap_or(0)
}

/// Writes a word to a place. Past them all nothing is written.
pub(crate) fn put(words: &mut [i32], place: usize, word: i32)
    ensures { words.new ≡ slice_set words.old place word }
{
    if place < words.len() {
        words[place] = word;
    }
}

// The first word where the condition is true, else the second.
fn picked(cond: i32, a: i32, b: i32) -> i32
    ensures { result ≡ picked cond a b }
{
    if cond != 0 { a } else { b }
}

// The value of an index, on the fields alone.
#[cycle(plain_value)]
fn plain_value(expr: &CheckedExpr, fields: &[i32]) -> i32
    ensures { result ≡ plain_value expr.now fields.now }
{
    match expr {
        CheckedExpr::Number(number) => *number,
        CheckedExpr::Field(field) => word_at(fields, *field as usize),
        CheckedExpr::Cell(_) => 0,
        CheckedExpr::One(op, a) => apply1(*op, plain_value(a.get(), fields)),
        CheckedExpr::Two(op, a, b) => apply2(
            *op,
            plain_value(a.get(), fields),
            plain_value(b.get(), fields),
        ),
        CheckedExpr::Pick(cond, a, b) => picked(
            plain_value(cond.get(), fields),
            plain_value(a.get(), fields),
            plain_value(b.get(), fields),
        ),
        CheckedExpr::Hash(kind, args) => plain_hash(*kind, args.as_slice(), fields),
    }
}

// The hash of the arguments.
#[cycle(plain_value)]
fn plain_hash(kind: HashKind, args: &[CheckedExpr], fields: &[i32]) -> i32
    ensures { result
        ≡ hash_all kind (map (λ (a : List ℤ → ℤ). a fields.now) (map plain_value args.now)) }
{
    hash(
        kind,
        plain_argument(args, 0, fields),
        plain_argument(args, 1, fields),
        plain_argument(args, 2, fields),
    )
}

// The value of an argument; 0 past them all.
#[cycle(plain_value)]
fn plain_argument(args: &[CheckedExpr], place: usize, fields: &[i32]) -> i32
    ensures { result
        ≡ word_at (map (λ (a : List ℤ → ℤ). a fields.now) (map plain_value args.now)) place }
{
    if place < args.len() {
        plain_value(&args[place], fields)
    } else {
        0
    }
}

// The number of the cell that the word names. Where the word is one, nothing is divided.
fn cell_named(index: i32, length: u32) -> u32
    requires least { 1 ≤ length }
    requires most { length ≤ 65536 }
    ensures { result ≡ cell index length }
{
    match u32::try_from(index) {
        Ok(number) if number < length => number,
        _ => cell_of(index, length),
    }
}

/// The place of the cell of an array that its index names, on the fields alone; 0 where it is touched nowhere.
pub fn place_of(checked: &Checked, array: u32, fields: &[i32]) -> u32
    ensures { result ≡ place (indexing checked.now) array fields.now }
{
    let arrays = checked.arrays();
    if array as usize >= arrays.len() {
        return 0;
    }
    match checked.index(array) {
        Some(index) => cell_named(plain_value(index, fields), arrays[array as usize].length),
        None => 0,
    }
}

/// The place of the cell of an array that its index names. It is computed where the array is touched first,
/// and kept from then on. Past them all nothing is kept.
#[inline]
pub(crate) fn touch(
    checked: &Checked,
    array: u32,
    fields: &[i32],
    places: &mut [Option<u32>],
) -> usize
    requires { ArePlaces (indexing checked.now) fields.now places.old }
    ensures place { result ≡ place (indexing checked.now) array fields.now }
    ensures touched { marks places.new ≡ touching (array ∷ []) (marks places.old) }
    ensures kept { ArePlaces (indexing checked.now) fields.now places.new }
{
    let slot = array as usize;
    if slot < places.len() {
        if let Some(place) = places[slot] {
            return place as usize;
        }
    }
    touch_first(checked, array, fields, places)
}

// The same, where the place is computed. It is apart so that `touch` is short where it is called.
#[inline(never)]
fn touch_first(checked: &Checked, array: u32, fields: &[i32], places: &mut [Option<u32>]) -> usize
    requires { ArePlaces (indexing checked.now) fields.now places.old }
    ensures place { result ≡ place (indexing checked.now) array fields.now }
    ensures touched { marks places.new ≡ touching (array ∷ []) (marks places.old) }
    ensures kept { ArePlaces (indexing checked.now) fields.now places.new }
{
    let place = place_of(checked, array, fields);
    let slot = array as usize;
    if slot >= places.len() {
        return place as usize;
    }
    places[slot] = Some(place);
    place as usize
}

// The word of an array's cell that its index names. The array is touched.
fn cell_value(
    checked: &Checked,
    array: u32,
    fields: &[i32],
    cells: &[Items<i32>],
    places: &mut [Option<u32>],
) -> i32
    requires { ArePlaces (indexing checked.now) fields.now places.old }
    ensures value { result
        ≡ word_at (cells_at cells.now array) (place (indexing checked.now) array fields.now) }
    ensures touched { marks places.new ≡ touching (array ∷ []) (marks places.old) }
    ensures kept { ArePlaces (indexing checked.now) fields.now places.new }
{
    let place = touch(checked, array, fields, places);
    let array = array as usize;
    if array < cells.len() {
        word_at(cells[array].as_slice(), place)
    } else {
        0
    }
}

/// The value of an expression. The arrays in it are touched.
#[cycle(value)]
pub(crate) fn value(
    checked: &Checked,
    expr: &CheckedExpr,
    fields: &[i32],
    cells: &[Items<i32>],
    places: &mut [Option<u32>],
) -> i32
    requires { ArePlaces (indexing checked.now) fields.now places.old }
    ensures value { result
        ≡ numbered_value (indexing checked.now) expr.now (store fields.now cells.now) }
    ensures touched { marks places.new ≡ touching (numbered_arrays expr.now) (marks places.old) }
    ensures kept { ArePlaces (indexing checked.now) fields.now places.new }
{
    match expr {
        CheckedExpr::Number(number) => *number,
        CheckedExpr::Field(field) => word_at(fields, *field as usize),
        CheckedExpr::Cell(array) => cell_value(checked, *array, fields, cells, places),
        CheckedExpr::One(op, a) => apply1(*op, operand(checked, a.get(), fields, cells, places)),
        CheckedExpr::Two(op, a, b) => {
            let left = operand(checked, a.get(), fields, cells, places);
            let right = operand(checked, b.get(), fields, cells, places);
            apply2(*op, left, right)
        }
        CheckedExpr::Pick(cond, a, b) => {
            let held = operand(checked, cond.get(), fields, cells, places);
            let first = operand(checked, a.get(), fields, cells, places);
            let second = operand(checked, b.get(), fields, cells, places);
            picked(held, first, second)
        }
        CheckedExpr::Hash(kind, args) => {
            hash_value(checked, *kind, args.as_slice(), fields, cells, places)
        }
    }
}

// The value of an operand, without a call where it is a number or a field, as most are.
#[inline]
#[cycle(value)]
fn operand(
    checked: &Checked,
    expr: &CheckedExpr,
    fields: &[i32],
    cells: &[Items<i32>],
    places: &mut [Option<u32>],
) -> i32
    requires { ArePlaces (indexing checked.now) fields.now places.old }
    ensures value { result
        ≡ numbered_value (indexing checked.now) expr.now (store fields.now cells.now) }
    ensures touched { marks places.new ≡ touching (numbered_arrays expr.now) (marks places.old) }
    ensures kept { ArePlaces (indexing checked.now) fields.now places.new }
{
    match expr {
        CheckedExpr::Number(number) => *number,
        CheckedExpr::Field(field) => word_at(fields, *field as usize),
        _ => value(checked, expr, fields, cells, places),
    }
}

// The hash of the arguments. The arrays in them are touched.
#[cycle(value)]
fn hash_value(
    checked: &Checked,
    kind: HashKind,
    args: &[CheckedExpr],
    fields: &[i32],
    cells: &[Items<i32>],
    places: &mut [Option<u32>],
) -> i32
    requires { ArePlaces (indexing checked.now) fields.now places.old }
    ensures value { result ≡ hash_all kind (map (λ (a : Store → ℤ). a (store fields.now cells.now))
        (map (numbered_value (indexing checked.now)) args.now)) }
    ensures touched { marks places.new
        ≡ touching (flat_map (λ (a : List ℕ). a) (map numbered_arrays args.now))
        (marks places.old) }
    ensures kept { ArePlaces (indexing checked.now) fields.now places.new }
{
    let mut words = [0; 3];
    for (place, arg) in args.iter().enumerate() {
        let word = operand(checked, arg, fields, cells, places);
        put(&mut words, place, word);
    }
    hash(kind, words[0], words[1], words[2])
}

#[cfg(test)]
mod tests {
    use super::*;
    use mp5_words::Op2;
    use sqlite_items::Boxed;
    use std::test::Fail;

    #[test]
    fn values_an_index_on_the_fields(rt: HostRuntime) -> Result<(), Fail> {
        let field = Boxed::new(rt.alloc(), CheckedExpr::Field(1))?;
        let ten = Boxed::new(rt.alloc(), CheckedExpr::Number(10))?;
        let index = CheckedExpr::Two(Op2::Rem, field, ten);
        for (fields, want) in [([3, 17], 7), ([17, 3], 3), ([0, -7], -7)] {
            assert_eq!(rt; plain_value(&index, &fields), want);
        }
        Ok(())
    }
}
