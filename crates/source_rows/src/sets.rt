//! Sets of arrays, in the order in which they were found; an array may stand in one more than once.
ghost use Rattle.std.specs.Prelude.{◌≡◌, ◌++◌, ◌∷◌, [], IfOk, slice_set};
ghost use Rattle.std.specs.List.{slice_index_or};
ghost use Rattle.source_rows.specs.Views.{three};

use sqlite_items::Items;
use std::alloc::{AllocError, Global};

/// The set at a place of a list; empty past them all.
pub(crate) fn set_at(
    alloc: Global,
    sets: &[Items<u32>],
    at: usize,
) -> Result<Items<u32>, AllocError>
    ensures { IfOk result (λ set. set ≡ slice_index_or sets.now at []) }
{
    if at < sets.len() {
        Items::from_slice(alloc, sets[at].as_slice())
    } else {
        Ok(Items::new(alloc))
    }
}

/// One array alone.
pub(crate) fn alone(alloc: Global, array: u32) -> Result<Items<u32>, AllocError>
    ensures { IfOk result (λ set. set ≡ array ∷ []) }
{
    let mut set = Items::new(alloc);
    set.push(array)?;
    Ok(set)
}

/// Those of the first, and then those of the second.
pub(crate) fn both(alloc: Global, first: &[u32], second: &[u32]) -> Result<Items<u32>, AllocError>
    ensures { IfOk result (λ set. set ≡ first.now ++ second.now) }
{
    let mut set = Items::from_slice(alloc, first)?;
    set.append(Items::from_slice(alloc, second)?)?;
    Ok(set)
}

/// Those of the first three of a list.
pub(crate) fn first_three(alloc: Global, sets: &[Items<u32>]) -> Result<Items<u32>, AllocError>
    ensures { IfOk result (λ set. set ≡ three sets.now) }
{
    let first = set_at(alloc, sets, 0)?;
    let second = set_at(alloc, sets, 1)?;
    let third = set_at(alloc, sets, 2)?;
    let rest = both(alloc, second.as_slice(), third.as_slice())?;
    both(alloc, first.as_slice(), rest.as_slice())
}

/// Puts a set at a place of a list; past them all nothing changes.
pub(crate) fn put_set(sets: &mut Vec<Items<u32>>, at: usize, set: Items<u32>)
    ensures { sets.new.items ≡ slice_set sets.old.items at set }
{
    if at < sets.len() {
        sets[at] = set;
    }
}
