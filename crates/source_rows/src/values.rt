//! The arrays behind the value of an expression.
ghost use Rattle.std.specs.Prelude.{◌≡◌, ◌∷◌, [], List, ℕ, IfOk, map, None, slice_set};
ghost use Rattle.std.specs.List.{slice_index_or};
ghost use Rattle.std.specs.Option.{option_copied};
ghost use Rattle.mp5_words.specs.Copies.{latest_of};
ghost use Rattle.mp5_words.specs.Domain.{source_ops};
ghost use Rattle.domino_check.specs.Walk.{walk_value, walk_index};
ghost use Rattle.source_rows.specs.Views.{seen, at_seen};

use crate::sets::{both, first_three, set_at};
use domino_check::CheckedExpr;
use sqlite_items::Items;
use std::alloc::{AllocError, Global};
use std::marker::Model;

/// What is known of a touched array, as sets of arrays: what is behind its index where it was touched first, behind
/// its latest copy, behind the guards under which it is touched, and behind the values assigned to it.
#[derive(Drop)]
pub struct Copied {
    pub(crate) index: Items<u32>,
    pub(crate) latest: Items<u32>,
    pub(crate) under: Items<Items<u32>>,
    pub(crate) stored: Items<Items<u32>>,
}

impl Model for Copied {
    ghost use Rattle.std.specs.Prelude.{List, ℕ};
    ghost use Rattle.mp5_words.specs.Copies.{Copy};
    ghost use Rattle.source_rows.specs.Views.{copy_code};

    ghost Value = { Copy (List ℕ) };

    ghost coded = { copy_code };

    ghost view = { λ c. record {
      index = c.index;
      latest = c.latest;
      under = c.under;
      stored = c.stored;
    } };
}

/// The arrays behind an expression.
#[cycle(value)]
pub(crate) fn value(
    alloc: Global,
    expr: &CheckedExpr,
    fields: &[Items<u32>],
    copies: &[Option<Copied>],
) -> Result<Items<u32>, AllocError>
    ensures { IfOk result
        (λ set. set ≡ walk_value (List ℕ) source_ops expr.now (seen fields.now copies.now)) }
{
    match expr {
        CheckedExpr::Number(_) => Ok(Items::new(alloc)),
        CheckedExpr::Field(f) => set_at(alloc, fields, *f as usize),
        CheckedExpr::Cell(a) => latest(alloc, copies, *a as usize),
        CheckedExpr::One(_, a) => value(alloc, a.get(), fields, copies),
        CheckedExpr::Two(_, a, b) => {
            let a = value(alloc, a.get(), fields, copies)?;
            let b = value(alloc, b.get(), fields, copies)?;
            both(alloc, a.as_slice(), b.as_slice())
        }
        CheckedExpr::Pick(c, a, b) => {
            let c = value(alloc, c.get(), fields, copies)?;
            let a = value(alloc, a.get(), fields, copies)?;
            let b = value(alloc, b.get(), fields, copies)?;
            let rest = both(alloc, a.as_slice(), b.as_slice())?;
            both(alloc, c.as_slice(), rest.as_slice())
        }
        CheckedExpr::Hash(_, args) => {
            let all = values(alloc, args.as_slice(), fields, copies)?;
            first_three(alloc, all.as_slice())
        }
    }
}

// The arrays behind each of these.
#[cycle(value)]
fn values(
    alloc: Global,
    args: &[CheckedExpr],
    fields: &[Items<u32>],
    copies: &[Option<Copied>],
) -> Result<Items<Items<u32>>, AllocError>
    ensures { IfOk result (λ all. all ≡ map (at_seen fields.now copies.now)
        (map (walk_value (List ℕ) source_ops) args.now)) }
{
    let mut all = Items::new(alloc);
    for arg in args {
        all.push(value(alloc, arg, fields, copies)?)?;
    }
    Ok(all)
}

// Those behind the latest copy of an array; none where it isn't touched.
fn latest(alloc: Global, copies: &[Option<Copied>], array: usize) -> Result<Items<u32>, AllocError>
    ensures { IfOk result
        (λ set. set ≡ latest_of (List ℕ) source_ops (slice_index_or copies.now array None)) }
{
    if copies.len() <= array {
        return Ok(Items::new(alloc));
    }
    match &copies[array] {
        Some(copied) => Items::from_slice(alloc, copied.latest.as_slice()),
        None => Ok(Items::new(alloc)),
    }
}

/// Those behind an index, on the fields alone; none where there is no index.
pub(crate) fn index(
    alloc: Global,
    index: Option<&CheckedExpr>,
    fields: &[Items<u32>],
) -> Result<Items<u32>, AllocError>
    ensures { IfOk result
        (λ set. set ≡ walk_index (List ℕ) source_ops (option_copied index.entry) fields.now) }
{
    match index {
        Some(index) => value(alloc, index, fields, &[]),
        None => Ok(Items::new(alloc)),
    }
}

/// What is known of an array goes out of the list.
pub(crate) fn take_copy(copies: &mut Vec<Option<Copied>>, at: usize) -> Option<Copied>
    ensures copy { result ≡ slice_index_or copies.old.items at None }
    ensures rest { copies.new.items ≡ slice_set copies.old.items at None }
{
    if at < copies.len() {
        copies[at].take()
    } else {
        None
    }
}

/// What is known of an array goes into the list; past them all nothing changes.
pub(crate) fn put_copy(copies: &mut Vec<Option<Copied>>, at: usize, copy: Option<Copied>)
    ensures { copies.new.items ≡ slice_set copies.old.items at copy }
{
    if at < copies.len() {
        copies[at] = copy;
    }
}
