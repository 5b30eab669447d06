//! What a header tells of the value of an expression.
ghost use Rattle.std.specs.Prelude.{◌≡◌, IfOk, map, None, slice_set};
ghost use Rattle.std.specs.List.{slice_index_or};
ghost use Rattle.std.specs.Option.{option_copied};
ghost use Rattle.mp5_words.specs.Copies.{latest_of};
ghost use Rattle.mp5_words.specs.Domain.{Mark as Known, mark_ops};
ghost use Rattle.domino_check.specs.Walk.{walk_value, walk_index};
ghost use Rattle.source_rows.specs.MarkViews.{seen, at_seen};

use crate::mark::{Mark, hashed, known, mark_at, one, pick, same, two};
use domino_check::CheckedExpr;
use sqlite_items::Items;
use std::alloc::{AllocError, Global};
use std::marker::Model;

/// What a header tells of a touched array: of its index where it is touched first, of its latest copy, of the guards
/// under which it is touched, and of the values assigned to it.
#[derive(Drop)]
pub struct Copied {
    pub(crate) index: Mark,
    pub(crate) latest: Mark,
    pub(crate) under: Items<Mark>,
    pub(crate) stored: Items<Mark>,
}

impl Model for Copied {
    ghost use Rattle.mp5_words.specs.Copies.{Copy};
    ghost use Rattle.mp5_words.specs.Domain.{Mark as Known};
    ghost use Rattle.source_rows.specs.MarkViews.{copy_code};

    ghost Value = { Copy Known };

    ghost coded = { copy_code };

    ghost view = { λ c. record {
      index = c.index;
      latest = c.latest;
      under = c.under;
      stored = c.stored;
    } };
}

/// The value of an expression.
#[cycle(value)]
pub(crate) fn value(
    alloc: Global,
    expr: &CheckedExpr,
    fields: &[Mark],
    copies: &[Option<Copied>],
) -> Result<Mark, AllocError>
    ensures { IfOk result
        (λ m. m ≡ walk_value Known mark_ops expr.now (seen fields.now copies.now)) }
{
    match expr {
        CheckedExpr::Number(n) => Ok(known(alloc, *n)),
        CheckedExpr::Field(f) => mark_at(alloc, fields, *f as usize),
        CheckedExpr::Cell(a) => latest(alloc, copies, *a as usize),
        CheckedExpr::One(op, a) => Ok(one(*op, value(alloc, a.get(), fields, copies)?)),
        CheckedExpr::Two(op, a, b) => {
            let a = value(alloc, a.get(), fields, copies)?;
            let b = value(alloc, b.get(), fields, copies)?;
            two(alloc, *op, &a, &b)
        }
        CheckedExpr::Pick(c, a, b) => {
            let c = value(alloc, c.get(), fields, copies)?;
            let a = value(alloc, a.get(), fields, copies)?;
            let b = value(alloc, b.get(), fields, copies)?;
            pick(alloc, &c, &a, &b)
        }
        CheckedExpr::Hash(kind, args) => {
            let all = values(alloc, args.as_slice(), fields, copies)?;
            hashed(alloc, *kind, all.as_slice())
        }
    }
}

// The values of these.
#[cycle(value)]
fn values(
    alloc: Global,
    args: &[CheckedExpr],
    fields: &[Mark],
    copies: &[Option<Copied>],
) -> Result<Items<Mark>, AllocError>
    ensures { IfOk result (λ all. all ≡ map (at_seen fields.now copies.now)
        (map (walk_value Known mark_ops) args.now)) }
{
    let mut all = Items::new(alloc);
    for arg in args {
        all.push(value(alloc, arg, fields, copies)?)?;
    }
    Ok(all)
}

// The latest copy of an array; 0 where it isn't touched.
fn latest(alloc: Global, copies: &[Option<Copied>], array: usize) -> Result<Mark, AllocError>
    ensures { IfOk result
        (λ m. m ≡ latest_of Known mark_ops (slice_index_or copies.now array None)) }
{
    if copies.len() <= array {
        return Ok(known(alloc, 0));
    }
    match &copies[array] {
        Some(copied) => same(alloc, &copied.latest),
        None => Ok(known(alloc, 0)),
    }
}

/// The value of an index, on the fields alone; 0 where there is no index.
pub(crate) fn index(
    alloc: Global,
    index: Option<&CheckedExpr>,
    fields: &[Mark],
) -> Result<Mark, AllocError>
    ensures { IfOk result
        (λ m. m ≡ walk_index Known mark_ops (option_copied index.entry) fields.now) }
{
    match index {
        Some(index) => value(alloc, index, fields, &[]),
        None => Ok(known(alloc, 0)),
    }
}

/// What is known of an array goes out of the list.
pub(crate) fn take_copy(copies: &mut Vec<Option<Copied>>, at: usize) -> Option<Copied>
    ensures copy { result ≡ slice_index_or copies.old.items at None }
    ensures rest { copies.new.items ≡ slice_set copies.old.items at None }
{
    if at < copies.len() {
        copies[at].take()
    } else {
        None
    }
}

/// What is known of an array goes into the list; past them all nothing changes.
pub(crate) fn put_copy(copies: &mut Vec<Option<Copied>>, at: usize, copy: Option<Copied>)
    ensures { copies.new.items ≡ slice_set copies.old.items at copy }
{
    if at < copies.len() {
        copies[at] = copy;
    }
}
