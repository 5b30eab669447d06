//! What a header alone tells of a value.
ghost use Rattle.std.specs.Prelude.{◌≡◌, ◌∷◌, [], ℕ, pos, IfOk, slice_set};
ghost use Rattle.mp5_words.specs.Copies.{at, hash_of};
ghost use Rattle.mp5_words.specs.Cells.{picked};
ghost use Rattle.mp5_words.specs.Words.{flag};
ghost use Rattle.mp5_words.specs.Domain.{Mark as Known, mark, mark_ops, marks, may};

use crate::sets::{alone, both};
use mp5_words::{HashKind, Op1, Op2, apply1, apply2, hash};
use sqlite_items::Items;
use std::alloc::{AllocError, Global};
use std::marker::Model;

/// The arrays behind a value; its word, which counts where there are none; and, of a guard, whether it is open.
#[derive(Drop)]
pub struct Mark {
    pub(crate) arrays: Items<u32>,
    pub(crate) word: i32,
    pub(crate) is_open: bool,
}

impl Model for Mark {
    ghost use Rattle.mp5_words.specs.Domain.{Mark as Known};
    ghost use Rattle.source_rows.specs.MarkViews.{mark_code};

    ghost Value = { Known };

    ghost coded = { mark_code };

    ghost view = { λ m. record {
      arrays = m.arrays;
      word = m.word;
      is_open = m.is_open;
    } };
}

/// A word with nothing behind it.
pub(crate) fn known(alloc: Global, word: i32) -> Mark
    ensures { result ≡ mark [] word }
{
    Mark {
        arrays: Items::new(alloc),
        word,
        is_open: true,
    }
}

/// A copy of an array.
pub(crate) fn copy_of(alloc: Global, array: u32) -> Result<Mark, AllocError>
    ensures { IfOk result (λ m. m ≡ mark (array ∷ []) (pos 0)) }
{
    Ok(Mark {
        arrays: alone(alloc, array)?,
        word: 0,
        is_open: true,
    })
}

/// The same mark.
pub(crate) fn same(alloc: Global, m: &Mark) -> Result<Mark, AllocError>
    ensures { IfOk result (λ copy. copy ≡ m.now) }
{
    Ok(Mark {
        arrays: Items::from_slice(alloc, m.arrays.as_slice())?,
        word: m.word,
        is_open: m.is_open,
    })
}

/// The mark at a place of a list; that of 0 past them all.
pub(crate) fn mark_at(alloc: Global, all: &[Mark], place: usize) -> Result<Mark, AllocError>
    ensures { IfOk result (λ m. m ≡ at Known mark_ops all.now place) }
{
    if place < all.len() {
        same(alloc, &all[place])
    } else {
        Ok(known(alloc, 0))
    }
}

/// Puts a mark at a place of a list; past them all nothing changes.
pub(crate) fn put_mark(all: &mut Vec<Mark>, place: usize, m: Mark)
    ensures { all.new.items ≡ slice_set all.old.items place m }
{
    if place < all.len() {
        all[place] = m;
    }
}

/// An operator before a value.
pub(crate) fn one(op: Op1, a: Mark) -> Mark
    ensures { result ≡ mark_ops.one op a }
{
    Mark {
        arrays: a.arrays,
        word: apply1(op, a.word),
        is_open: true,
    }
}

/// An operator between two values.
pub(crate) fn two(alloc: Global, op: Op2, a: &Mark, b: &Mark) -> Result<Mark, AllocError>
    ensures { IfOk result (λ m. m ≡ mark_ops.two op a.now b.now) }
{
    Ok(Mark {
        arrays: both(alloc, a.arrays.as_slice(), b.arrays.as_slice())?,
        word: apply2(op, a.word, b.word),
        is_open: true,
    })
}

/// One of two values, as a condition says.
pub(crate) fn pick(alloc: Global, c: &Mark, a: &Mark, b: &Mark) -> Result<Mark, AllocError>
    ensures { IfOk result (λ m. m ≡ mark_ops.pick c.now a.now b.now) }
{
    let rest = both(alloc, a.arrays.as_slice(), b.arrays.as_slice())?;
    Ok(Mark {
        arrays: both(alloc, c.arrays.as_slice(), rest.as_slice())?,
        word: picked(c.word, a.word, b.word),
        is_open: true,
    })
}

// The second word where the first isn't 0, else the third.
fn picked(c: i32, a: i32, b: i32) -> i32
    ensures { result ≡ picked c a b }
{
    if c != 0 { a } else { b }
}

/// The hash of the first three of a list.
pub(crate) fn hashed(alloc: Global, kind: HashKind, all: &[Mark]) -> Result<Mark, AllocError>
    ensures { IfOk result (λ m. m ≡ hash_of Known mark_ops kind all.now) }
{
    let first = mark_at(alloc, all, 0)?;
    let second = mark_at(alloc, all, 1)?;
    let third = mark_at(alloc, all, 2)?;
    let rest = both(alloc, second.arrays.as_slice(), third.arrays.as_slice())?;
    Ok(Mark {
        arrays: both(alloc, first.arrays.as_slice(), rest.as_slice())?,
        word: hash(kind, first.word, second.word, third.word),
        is_open: true,
    })
}

/// The guard under which a condition holds, where this guard does.
pub(crate) fn yes(alloc: Global, guard: &Mark, cond: &Mark) -> Result<Mark, AllocError>
    ensures { IfOk result (λ m. (lengths : ℕ → ℕ) → m ≡ (marks lengths).yes guard.now cond.now) }
{
    Ok(Mark {
        arrays: both(alloc, guard.arrays.as_slice(), cond.arrays.as_slice())?,
        word: flag_of(guard.word != 0 && cond.word != 0),
        is_open: guard.is_open && may_be(cond.arrays.as_slice(), cond.word != 0),
    })
}

/// The guard under which a condition fails, where this guard does not.
pub(crate) fn no(alloc: Global, guard: &Mark, cond: &Mark) -> Result<Mark, AllocError>
    ensures { IfOk result (λ m. (lengths : ℕ → ℕ) → m ≡ (marks lengths).no guard.now cond.now) }
{
    Ok(Mark {
        arrays: both(alloc, guard.arrays.as_slice(), cond.arrays.as_slice())?,
        word: flag_of(guard.word != 0 && cond.word == 0),
        is_open: guard.is_open && may_be(cond.arrays.as_slice(), cond.word == 0),
    })
}

fn flag_of(holds: bool) -> i32
    ensures { result ≡ flag holds }
{
    if holds { 1 } else { 0 }
}

// A condition with arrays behind it may hold and may fail.
fn may_be(arrays: &[u32], known: bool) -> bool
    ensures { result ≡ may arrays.now known }
{
    match arrays {
        [] => known,
        _ => true,
    }
}
