//! Which arrays of a program need which.
ghost use Rattle.std.specs.Prelude.{◌≡◌, ◌⊎◌, true, IfOk, None};
ghost use Rattle.std.specs.List.{slice_index_or};
ghost use Rattle.dependence.specs.Tables.{has};
ghost use Rattle.dependence.specs.Uses.{Member};
ghost use Rattle.domino_check.specs.SourceGroups.{Needs, StandsBehind, all_sources};
ghost use Rattle.source_rows.specs.Marks.{Marks, MarksPairs};

use crate::sources::walk;
use crate::values::Copied;
use dependence::Table;
use domino_check::Checked;
use mp5_words::NoMemory;
use sqlite_items::Items;
use std::alloc::Global;

/// A mark for each pair of arrays of which the first needs the second.
pub fn needs(alloc: Global, checked: &Checked) -> Result<Table, NoMemory>
    ensures { IfOk result (λ table. MarksPairs table (Needs checked.now)) }
{
    let walked = walk(alloc, checked)?;
    Ok(table_of(&walked.copies))
}

// The marks of each array's row.
pub(crate) fn table_of(copies: &[Option<Copied>]) -> Table
    ensures { MarksPairs result (λ a b. StandsBehind b (slice_index_or copies.now a None)) }
{
    let mut table = [[false; 16]; 16];
    for a in 0..16 {
        table[a] = row_at(copies, a);
    }
    table
}

// The marks of an array's row; none past them all.
fn row_at(copies: &[Option<Copied>], a: usize) -> [bool; 16]
    ensures { Marks result (λ b. StandsBehind b (slice_index_or copies.now a None)) }
{
    if a < copies.len() {
        row_of(&copies[a])
    } else {
        [false; 16]
    }
}

fn row_of(copied: &Option<Copied>) -> [bool; 16]
    ensures { Marks result (λ b. StandsBehind b copied.now) }
{
    let mut row = [false; 16];
    if let Some(copied) = copied {
        mark(&mut row, copied.index.as_slice());
        mark_lists(&mut row, copied.under.as_slice());
        mark_lists(&mut row, copied.stored.as_slice());
    }
    row
}

// Marks these arrays too, one list after another.
fn mark_lists(row: &mut [bool; 16], lists: &[Items<u32>])
    ensures { Marks row.new
        (λ b. (has row.old b ≡ true) ⊎ Member b (all_sources lists.now)) }
{
    for list in lists {
        mark(row, list.as_slice());
    }
}

// Marks these arrays too.
fn mark(row: &mut [bool; 16], arrays: &[u32])
    ensures { Marks row.new (λ b. (has row.old b ≡ true) ⊎ Member b arrays.now) }
{
    for array in arrays {
        mark_one(row, *array);
    }
}

fn mark_one(row: &mut [bool; 16], array: u32)
    ensures { Marks row.new (λ b. (has row.old b ≡ true) ⊎ (b ≡ array)) }
{
    if array < 16 {
        row[array as usize] = true;
    }
}
