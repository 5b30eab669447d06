//! The index of each array.
ghost use Rattle.std.specs.Prelude.{◌≡◌, ◌≢◌, ◌<◌, ◌↔◌, length, map, Some, None, IsTrue, IfOk, IfErr, OnOk, []};
ghost use Rattle.std.specs.List.{slice_index_or};
ghost use Rattle.domino_names.specs.declared.fault.CheckFault.TheVariants as fault;
ghost use Rattle.domino_names.specs.First.{FirstFault, NoFault};
ghost use Rattle.domino_names.specs.Infos.{array_of};
ghost use Rattle.domino_check.specs.Indexes.{IndexDiffersAt, IsOther, AreIndexes, AreBelow, AllKeep, Agrees, index_of, indexes_of, noted, array_name};

use crate::numbered::{CheckedExpr, same};
use crate::translation::Access;
use domino_names::{ArrayInfo, CheckFault, copy_name};
use sqlite_items::Items;
use std::alloc::{AllocError, Global};

/// The index of each array: that of its first access. Refuses where an access has another one, or one in
/// which an array stands; the first such access is told.
pub(crate) fn index_table(
    alloc: Global,
    arrays: &[ArrayInfo],
    accesses: Vec<Access>,
) -> Result<Items<Option<CheckedExpr>>, CheckFault>
    requires { AreBelow (length arrays.now) accesses.items }
    ensures passes { OnOk result
        (NoFault (IndexDiffersAt (map array_of arrays.now)) accesses.items) }
    ensures kept { OnOk result (AllKeep (index_of accesses.items) accesses.items) }
    ensures table { IfOk result (λ table. table ≡ indexes_of accesses.items (length arrays.now)) }
    ensures refuses { IfErr result
        (λ f. f ≢ fault.NoMemory
        → FirstFault (IndexDiffersAt (map array_of arrays.now)) accesses.items f) }
{
    let mut table = no_indexes(alloc, arrays.len())?;
    for access in accesses {
        let (array, index) = access.into_parts();
        if !note_index(&mut table, array as usize, index) {
            return Err(differs(alloc, arrays, array as usize));
        }
    }
    Ok(table)
}

// A table without any index.
fn no_indexes(alloc: Global, count: usize) -> Result<Items<Option<CheckedExpr>>, AllocError>
    ensures { IfOk result (λ table. AreIndexes [] count table) }
{
    let mut table = Items::new(alloc);
    for _ in 0..count {
        table.push(None)?;
    }
    Ok(table)
}

// Keeps the index of an array's first access. Says whether it is that of the first access.
fn note_index(
    table: &mut Items<Option<CheckedExpr>>,
    array: usize,
    index: Option<CheckedExpr>,
) -> bool
    requires { array < length table.old }
    ensures same { IsTrue result ↔ (¬ IsOther (slice_index_or table.old array None) index) }
    ensures agrees { IsTrue result → Agrees (slice_index_or table.old array None) index }
    ensures kept { IsTrue result
        → table.new ≡ noted (slice_index_or table.old array None) table.old array index }
{
    let Some(index) = index else { return false };
    if let Some(first) = &table.as_slice()[array] {
        return same(first, &index);
    }
    table.set(array, Some(index));
    true
}

// The fault that names the array.
fn differs(alloc: Global, arrays: &[ArrayInfo], array: usize) -> CheckFault
    requires { array < length arrays.now }
    ensures { result ≢ fault.NoMemory
        → result ≡ fault.IndexDiffers (array_name (map array_of arrays.now) array) }
{
    match copy_name(alloc, &arrays[array].name) {
        Ok(name) => CheckFault::IndexDiffers(name),
        Err(error) => error.into(),
    }
}
