//! What a run answers, and the room for it.
ghost use Rattle.std.specs.Prelude.{◌≡◌, ◌≤◌, ◌*◌, [], length, map, sum, IfOk, vec_capacity};
ghost use Rattle.code_forms.specs.Staged.{unit_count};
ghost use Rattle.run_answer.specs.Cells.{cell_count};
ghost use Rattle.switch_net.specs.Building.{HasRoom, ArePlanned};

use code_forms::StagedCode;
use mp5_words::NoMemory;
use packet_steps::RunData;
use shard_rounds::Plan;
use std::alloc::Global;

/// What a run answers. Packets stand in order of arrival, each with a word for each field. Cells
/// are those of all arrays in order of declaration. Counts say how often each unit was served, by
/// group and unit. `by` and `touched` have an entry for each arrival and group, by arrival and
/// then by group: the pipe that served it there, or 255, and the set of the arrays that it
/// touched. There is a plan before each round but the first.
#[derive(Drop)]
pub struct Answer {
    pub arrivals: u32,
    pub packets: Vec<i32>,
    pub cells: Vec<i32>,
    pub counts: Vec<u32>,
    pub by: Vec<u8>,
    pub touched: Vec<u16>,
    pub plans: Vec<Plan>,
}

/// An answer with the room for all that a run answers.
pub(crate) fn with_room(alloc: Global, run: &RunData<'_>) -> Result<Answer, NoMemory>
    ensures { IfOk result (HasRoom run.now []) }
{
    let arrivals = run.capture.count();
    let last_round = arrivals.saturating_sub(1) / run.settings.round;
    let entries = arrivals as usize * run.code.groups() as usize;
    Ok(Answer {
        arrivals,
        packets: vec![in alloc; 0; arrivals as usize * run.code.fields() as usize]?,
        cells: Vec::with_capacity(alloc, cell_count(run.code))?,
        counts: Vec::with_capacity(alloc, unit_total(run.code))?,
        by: Vec::with_capacity(alloc, entries)?,
        touched: Vec::with_capacity(alloc, entries)?,
        plans: empty_plans(alloc, last_round)?,
    })
}

// How many cells all arrays have.
fn cell_count(code: &StagedCode) -> usize
    ensures { result ≡ cell_count code.now (length code.now.arrays) }
{
    let mut count = 0;
    for a in 0..code.array_count() {
        count += code.length(a) as usize;
    }
    count
}

// How many units all groups have.
fn unit_total(code: &StagedCode) -> usize
    ensures sum { result ≡ sum (map (unit_count code.now) code.now.groups) }
    ensures few { result ≤ 1048576 }
{
    let mut count = 0;
    for g in 0..code.groups() {
        count += code.units(g) as usize;
    }
    count
}

// So many plans with no moves, each with room for a move of each group.
fn empty_plans(alloc: Global, count: u32) -> Result<Vec<Plan>, NoMemory>
    ensures { IfOk result (λ plans. ArePlanned [] count plans.items) }
{
    let mut plans = Vec::with_capacity(alloc, count as usize)?;
    for _ in 0..count {
        plans.push_reserved(Plan {
            moves: Vec::with_capacity(alloc, 16)?,
        });
    }
    Ok(plans)
}
