//! The cells.
ghost use Rattle.std.specs.Prelude.{◌≡◌, ◌+◌, ◌<◌, ◌≤◌, ◌++◌, IfSome, Some, None, [], ◌∷◌, length, true, if◌then◌else◌, vec_len, vec_capacity};
ghost use Rattle.mp5_words.specs.Cells.{word_at};
ghost use Rattle.code_forms.specs.FlatMeaning.{flat_length};
ghost use Rattle.code_forms.specs.Staged.{group_at, group_of, unit_count, share, cells_before, IsGroup};
ghost use Rattle.shard_rounds.specs.Rounds.{owner_now};
ghost use Rattle.run_laws.specs.Run.{arrivals, units_before};
ghost use Rattle.run_laws.specs.LawfulPlans.{AreAllPlans, owners_after};
ghost use Rattle.switch_worker.specs.Finished.{IsFinished, AreFinished};
ghost use Rattle.run_answer.specs.Cells.{cell_count, all_cells, has_array, words_below};

use code_forms::{StagedCode, Unit};
use packet_steps::RunData;
use shard_rounds::Owners;
use switch_worker::Worker;

/// Appends the cells of all arrays, in order of declaration. `owners` has the owners in the last
/// round, and there is room.
pub fn push_cells(run: &RunData<'_>, workers: &[Worker<'_>], owners: &Owners, cells: &mut Vec<i32>)
    requires finished { AreFinished run.now workers.now }
    requires owners { owners.now ≡ owners_after run.now owners.now.plans }
    requires plans { AreAllPlans run.now owners.now.plans }
    requires empty { cells.old.items ≡ [] }
    requires room { cell_count run.now.code (length run.now.code.arrays) ≤ vec_capacity cells.old }
    ensures { cells.new.items ≡ all_cells run.now.code (units_before run.now (arrivals run.now)) }
{
    for a in 0..array_count(run) {
        push_array(run, workers, owners, a, cells);
    }
}

// How many arrays the code has.
fn array_count(run: &RunData<'_>) -> u32
    ensures count { result ≡ length run.now.code.arrays }
    ensures few { length run.now.code.arrays ≤ 16 }
{
    run.code.array_count()
}

// Appends the cells of an array: where a group has it, those of the group's units, else those at
// the start.
fn push_array(
    run: &RunData<'_>,
    workers: &[Worker<'_>],
    owners: &Owners,
    a: u32,
    cells: &mut Vec<i32>,
)
    requires finished { AreFinished run.now workers.now }
    requires owners { owners.now ≡ owners_after run.now owners.now.plans }
    requires plans { AreAllPlans run.now owners.now.plans }
    requires array { a < length run.now.code.arrays }
    requires few { a < 16 }
    requires room { vec_len cells.old + flat_length run.now.code.arrays a ≤ vec_capacity cells.old }
    ensures items { cells.new.items ≡ cells.old.items ++ words_below run.now.code
        (units_before run.now (arrivals run.now)) a (flat_length run.now.code.arrays a) }
    ensures len { vec_len cells.new ≡ vec_len cells.old + flat_length run.now.code.arrays a }
    ensures capacity { vec_capacity cells.new ≡ vec_capacity cells.old }
{
    match group_of(run.code, a) {
        Some(g) => push_placed(run, workers, owners, g, a, cells),
        None => push_start(run, a, cells),
    }
}

// Appends the cells of an array of no group, which stay as they start.
fn push_start(run: &RunData<'_>, a: u32, cells: &mut Vec<i32>)
    requires array { a < length run.now.code.arrays }
    requires group { group_of run.now.code a ≡ None }
    requires room { vec_len cells.old + flat_length run.now.code.arrays a ≤ vec_capacity cells.old }
    ensures items { cells.new.items ≡ cells.old.items ++ words_below run.now.code
        (units_before run.now (arrivals run.now)) a (flat_length run.now.code.arrays a) }
    ensures len { vec_len cells.new ≡ vec_len cells.old + flat_length run.now.code.arrays a }
    ensures capacity { vec_capacity cells.new ≡ vec_capacity cells.old }
{
    for i in 0..array_length(run, a) {
        cells.push_reserved(run.code.start(a, i));
    }
}

// How many cells an array has.
fn array_length(run: &RunData<'_>, a: u32) -> u32
    requires { a < length run.now.code.arrays }
    ensures { result ≡ flat_length run.now.code.arrays a }
{
    run.code.length(a)
}

// Appends the cells of an array of a group, each from the unit in which it stands.
fn push_placed(
    run: &RunData<'_>,
    workers: &[Worker<'_>],
    owners: &Owners,
    g: u32,
    a: u32,
    cells: &mut Vec<i32>,
)
    requires finished { AreFinished run.now workers.now }
    requires owners { owners.now ≡ owners_after run.now owners.now.plans }
    requires plans { AreAllPlans run.now owners.now.plans }
    requires array { a < length run.now.code.arrays }
    requires few { a < 16 }
    requires group { g < length run.now.code.groups }
    requires has { has_array (group_at run.now.code g) a ≡ true }
    requires room { vec_len cells.old + flat_length run.now.code.arrays a ≤ vec_capacity cells.old }
    ensures items { cells.new.items ≡ cells.old.items ++ words_below run.now.code
        (units_before run.now (arrivals run.now)) a (flat_length run.now.code.arrays a) }
    ensures len { vec_len cells.new ≡ vec_len cells.old + flat_length run.now.code.arrays a }
    ensures capacity { vec_capacity cells.new ≡ vec_capacity cells.old }
{
    let share = share_of(run.code, g, a);
    let offset = offset_of(run.code, g, a);
    for i in 0..array_length(run, a) {
        let worker = owner(run, workers, owners, g, i / share);
        let unit = unit_of(run, worker, owners, g, i / share);
        push_word(unit.cells.as_slice(), offset + (i % share) as usize, cells);
    }
}

// The owner of a unit in the last round.
fn owner<'w, 'a>(
    run: &RunData<'_>,
    workers: &'w [Worker<'a>],
    owners: &Owners,
    g: u32,
    u: u32,
) -> &'w Worker<'a>
    requires finished { AreFinished run.now workers.now }
    requires owners { owners.now ≡ owners_after run.now owners.now.plans }
    requires group { g < length run.now.code.groups }
    requires unit { u < unit_count run.now.code (group_at run.now.code g) }
    ensures { IsFinished run.now (owner_now owners.now g u) result.now.pipe }
{
    &workers[owners.of(g, u) as usize]
}

// A unit after all arrivals, as its owner in the last round has it.
fn unit_of<'w>(
    run: &RunData<'_>,
    worker: &'w Worker<'_>,
    owners: &Owners,
    g: u32,
    u: u32,
) -> &'w Unit
    requires finished { IsFinished run.now (owner_now owners.now g u) worker.now.pipe }
    requires owners { owners.now ≡ owners_after run.now owners.now.plans }
    requires plans { AreAllPlans run.now owners.now.plans }
    requires group { g < length run.now.code.groups }
    requires unit { u < unit_count run.now.code (group_at run.now.code g) }
    ensures { result.now.cells ≡ units_before run.now (arrivals run.now) g u }
{
    match worker.pipe.unit(g, u) {
        Some(unit) => unit,
        None => unreachable!(),
    }
}

// Appends the word at a place, or 0 where there is none.
fn push_word(words: &[i32], place: usize, cells: &mut Vec<i32>)
    requires room { vec_len cells.old < vec_capacity cells.old }
    ensures items { cells.new.items ≡ cells.old.items ++ word_at words.now place ∷ [] }
    ensures len { vec_len cells.new ≡ vec_len cells.old + 1 }
    ensures capacity { vec_capacity cells.new ≡ vec_capacity cells.old }
{
    cells.push_reserved(words.get(place).copied().unwrap_or(0));
}

// The group that has an array, if one has.
fn group_of(code: &StagedCode, a: u32) -> Option<u32>
    requires { a < 16 }
    ensures group { result ≡ group_of code.now a }
    ensures bound { IfSome result (λ g. g < length code.now.groups) }
    ensures has { IfSome result (λ g. has_array (group_at code.now g) a ≡ true) }
{
    for g in 0..code.groups() {
        if has_array(code, g, a) {
            return Some(g);
        }
    }
    None
}

// Whether a group has an array.
fn has_array(code: &StagedCode, g: u32, a: u32) -> bool
    requires group { g < length code.now.groups }
    requires few { a < 16 }
    ensures has { result ≡ has_array (group_at code.now g) a }
    ensures laws { IsGroup code.now g }
{
    code.arrays(g) >> a & 1 == 1
}

// How many cells of an array of a group a unit has.
fn share_of(code: &StagedCode, g: u32, a: u32) -> u32
    requires group { g < length code.now.groups }
    requires array { a < length code.now.arrays }
    requires few { a < 16 }
    requires has { has_array (group_at code.now g) a ≡ true }
    ensures share { result ≡ share code.now (group_at code.now g) a }
    ensures laws { IsGroup code.now g }
{
    prove!(g < code.groups());
    prove!(has_array(code, g, a));
    code.length(a) / code.units(g)
}

// How many cells of an array a unit of a group has: none, where the group doesn't have the array.
fn cells_of(code: &StagedCode, g: u32, a: u32) -> u32
    requires group { g < length code.now.groups }
    requires array { a < length code.now.arrays }
    requires few { a < 16 }
    ensures { result ≡ (if has_array (group_at code.now g) a
        then share code.now (group_at code.now g) a else 0) }
{
    if has_array(code, g, a) {
        share_of(code, g, a)
    } else {
        0
    }
}

// How many cells stand before those of an array in a unit of its group.
fn offset_of(code: &StagedCode, g: u32, a: u32) -> usize
    requires group { g < length code.now.groups }
    requires array { a < length code.now.arrays }
    requires few { a < 16 }
    requires has { has_array (group_at code.now g) a ≡ true }
    ensures offset { result ≡ cells_before (share code.now (group_at code.now g))
        (group_at code.now g).arrays a }
    ensures bound { result ≤ 68719476736 }
{
    prove!(has_array(code, g, a));
    let mut before = 0;
    for b in 0..a {
        before += cells_of(code, g, b) as usize;
    }
    before
}
