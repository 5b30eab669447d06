//! The choice of the moves of the next plan.
ghost use Rattle.std.specs.Prelude.{◌≡◌, ◌+◌, ◌*◌, ◌<◌, ◌≤◌, ◌-◌, ℕ, List, length, take, sum, slice_index, IfOk, EachIndex, option_to_list, option_map};
ghost use Rattle.shard_rounds.specs.declared.plan.Move.{Move};
ghost use Rattle.shard_rounds.specs.Rounds.{IsPlan};
ghost use Rattle.shard_rounds.specs.Choice.{total, IsFirstMost, IsFirstLeast, IsUnitChoice, IsGroupChoice, IsChoice, AreOverSame};

use crate::loads::Loads;
use crate::owners::Owners;
use crate::plan::Move;
use mp5_words::NoMemory;
use std::alloc::Global;

/// The moves of the next plan, in order of groups. In each group the pipe with the greatest total load gives,
/// and the one with the least takes, by the least number on ties. Of the giver's units with a load whose double
/// is at most the difference of the totals, the one with the greatest load moves, by the least number on ties.
pub fn choose_moves(alloc: Global, loads: &Loads, owners: &Owners) -> Result<Vec<Move>, NoMemory>
    requires { AreOverSame loads.now owners.now }
    ensures choice { IfOk result (λ moves. IsChoice loads.now owners.now moves.items) }
    ensures only { IfOk result (λ moves. (others : List Move)
        → IsChoice loads.now owners.now others → others ≡ moves.items) }
    ensures plan { IfOk result (λ moves. IsPlan owners.now moves.items) }
{
    let mut room = [NO_MOVE; 16];
    let count = choose_into(loads, owners, &mut room);
    Ok(Vec::from_slice(alloc, &room[..count])?)
}

/// The same into room of the caller. Gives the number of moves. Takes a time in proportion to the units.
pub fn choose_into(loads: &Loads, owners: &Owners, room: &mut [Move; 16]) -> usize
    requires { AreOverSame loads.now owners.now }
    ensures count { result ≤ 16 }
    ensures choice { IsChoice loads.now owners.now (take result room.new) }
    ensures only { (others : List Move)
        → IsChoice loads.now owners.now others → others ≡ take result room.new }
    ensures plan { IsPlan owners.now (take result room.new) }
{
    let mut count = 0;
    for g in 0..loads.groups() {
        if let Some(chosen) = choose_group(owners.row(g), loads.row(g), owners.pipes(), g as u32) {
            room[count] = chosen;
            count += 1;
        }
    }
    count
}

// What stands in room that is not yet filled.
const NO_MOVE: Move = Move {
    group: 0,
    unit: 0,
    giver: 0,
    taker: 0,
};

// The move of one group, where a unit moves. None does where there is one pipe.
fn choose_group(owners: &[u32], loads: &[u32], pipelines: u32, group: u32) -> Option<Move>
    requires some { 1 ≤ pipelines }
    requires pipelines { pipelines ≤ 8 }
    requires same { length owners.now ≡ length loads.now }
    requires pipes { EachIndex owners.now (λ u. slice_index owners.now u < pipelines) }
    requires few { sum loads.now ≤ 262144 }
    requires size { length owners.now ≤ 65536 }
    ensures { IsGroupChoice owners.now loads.now pipelines group (option_to_list result) }
{
    if pipelines < 2 {
        return None;
    }
    let totals = totals_of(owners, loads);
    let giver = first_most(&totals[..pipelines as usize]);
    let taker = first_least(&totals[..pipelines as usize]);
    let gap = totals[giver as usize] - totals[taker as usize];
    match best_unit(owners, loads, giver, gap) {
        Some(unit) => Some(Move {
            group,
            unit,
            giver,
            taker,
        }),
        None => None,
    }
}

// The total load of each pipe.
fn totals_of(owners: &[u32], loads: &[u32]) -> [u32; 8]
    requires same { length owners.now ≡ length loads.now }
    requires pipes { EachIndex owners.now (λ u. slice_index owners.now u < 8) }
    requires few { sum loads.now ≤ 262144 }
    ensures size { length result ≡ 8 }
    ensures totals { (p : ℕ) → p < 8 → slice_index result p ≡ total owners.now loads.now p }
{
    let mut totals = [0; 8];
    for u in 0..owners.len() {
        if loads[u] == 0 {
            continue;
        }
        totals[owners[u] as usize] += loads[u];
    }
    totals
}

// The first pipe with the greatest total.
fn first_most(totals: &[u32]) -> u32
    requires some { 0 < length totals.now }
    requires few { length totals.now ≤ 8 }
    ensures { IsFirstMost (length totals.now) (slice_index totals.now) result }
{
    let mut most = 0;
    for p in 1..totals.len() {
        if totals[p] > totals[most] {
            most = p;
        }
    }
    most as u32
}

// The first pipe with the least total.
fn first_least(totals: &[u32]) -> u32
    requires some { 0 < length totals.now }
    requires few { length totals.now ≤ 8 }
    ensures { IsFirstLeast (length totals.now) (slice_index totals.now) result }
{
    let mut least = 0;
    for p in 1..totals.len() {
        if totals[p] < totals[least] {
            least = p;
        }
    }
    least as u32
}

// The first unit with the greatest load of those that may go.
fn best_unit(owners: &[u32], loads: &[u32], giver: u32, gap: u32) -> Option<u32>
    requires same { length owners.now ≡ length loads.now }
    requires size { length owners.now ≤ 65536 }
    ensures { IsUnitChoice owners.now loads.now giver gap result }
{
    let mut best = None;
    let mut most = 0;
    for u in 0..owners.len() {
        if loads[u] > most && owners[u] == giver && loads[u] <= gap / 2 {
            best = Some(u as u32);
            most = loads[u];
        }
    }
    best
}

#[cfg(test)]
mod tests {
    use super::*;
    use crate::plan::Plan;
    use std::test::Fail;

    // The move of group 0 as unit, giver and taker.
    fn chosen(owners: &[u32], loads: &[u32], pipelines: u32) -> Option<(u32, u32, u32)>
        requires some { 1 ≤ pipelines }
        requires pipelines { pipelines ≤ 8 }
        requires same { length owners.now ≡ length loads.now }
        requires pipes { EachIndex owners.now (λ u. slice_index owners.now u < pipelines) }
        requires few { sum loads.now ≤ 262144 }
        requires size { length owners.now ≤ 65536 }
    {
        match choose_group(owners, loads, pipelines, 0) {
            Some(chosen) => Some((chosen.unit, chosen.giver, chosen.taker)),
            None => None,
        }
    }

    #[test]
    fn the_greatest_load_that_fits_moves(rt: HostRuntime) {
        assert_eq!(rt; chosen(&[0, 1, 0, 1], &[5, 1, 3, 0], 2), Some((2, 0, 1)));
        assert_eq!(rt; chosen(&[0, 0, 1], &[4, 4, 0], 2), Some((0, 0, 1)));
        assert_eq!(rt; chosen(&[0, 0, 1], &[4, 4, 1], 2), None, "2 * 4 is over 7");
        assert_eq!(rt; chosen(&[1, 1, 0], &[2, 3, 0], 2), Some((0, 1, 0)));
    }

    #[test]
    fn ties_go_to_the_least_number(rt: HostRuntime) {
        assert_eq!(rt; chosen(&[0, 1], &[4, 4], 2), None, "the totals tie");
        assert_eq!(rt;
            chosen(&[2, 1, 2, 1], &[3, 2, 3, 4], 3),
            Some((1, 1, 0)),
            "two pipes give most"
        );
        assert_eq!(rt;
            chosen(&[0, 0], &[1, 1], 3),
            Some((0, 0, 1)),
            "two pipes take least"
        );
    }

    #[test]
    fn nothing_moves(rt: HostRuntime) {
        assert_eq!(rt; chosen(&[0, 1], &[0, 0], 2), None, "no load");
        assert_eq!(rt; chosen(&[0, 0], &[0, 9], 1), None, "one pipe");
        assert_eq!(rt; chosen(&[0], &[262_144], 8), None, "all load in one unit");
    }

    #[test]
    fn the_loads_5_1_3_and_0_of_two_pipes(rt: HostRuntime) -> Result<(), Fail> {
        let units = [4];
        let owners = Owners::start(rt.alloc(), &units, 2, 1)?;
        let mut loads = Loads::start(rt.alloc(), &units)?;
        loads.add(0, 0);
        loads.add(0, 0);
        loads.add(0, 0);
        loads.add(0, 0);
        loads.add(0, 0);
        loads.add(0, 1);
        loads.add(0, 2);
        loads.add(0, 2);
        loads.add(0, 2);
        let moves = choose_moves(rt.alloc(), &loads, &owners)?;
        let wanted = Move {
            group: 0,
            unit: 2,
            giver: 0,
            taker: 1,
        };
        assert_eq!(rt;
            moves.as_slice(),
            [wanted].as_slice(),
            "the totals are 8 and 1"
        );
        Ok(())
    }

    #[test]
    fn a_plan_without_a_move(rt: HostRuntime) -> Result<(), Fail> {
        let units = [3, 1];
        let loads = Loads::start(rt.alloc(), &units)?;
        let mut owners = Owners::start(rt.alloc(), &units, 2, 1)?;
        let moves = choose_moves(rt.alloc(), &loads, &owners)?;
        assert_eq!(rt; moves.len(), 0);
        owners.apply(&Plan { moves });
        assert_eq!(rt; owners.of(0, 1), 1);
        assert_eq!(rt; owners.at(0, 1, 0), 1);
        assert_eq!(rt; owners.at(1, 1, 0), 1);
        Ok(())
    }

    #[test]
    fn a_plan_is_chosen_and_applied(rt: HostRuntime) -> Result<(), Fail> {
        let units = [4];
        let mut loads = Loads::start(rt.alloc(), &units)?;
        let mut owners = Owners::start(rt.alloc(), &units, 2, 1)?;
        assert_eq!(rt; owners.of(0, 0), 0);
        assert_eq!(rt; owners.of(0, 3), 1);
        loads.add(0, 0);
        loads.add(0, 2);
        assert_eq!(rt; loads.at(0, 2), 1);
        let moves = choose_moves(rt.alloc(), &loads, &owners)?;
        assert_eq!(rt; moves.len(), 1);
        owners.apply(&Plan { moves });
        assert_eq!(rt; owners.applied(), 1);
        assert_eq!(rt; owners.plan(0).len(), 1);
        assert_eq!(rt; owners.of(0, 0), 1);
        assert_eq!(rt; owners.at(0, 0, 0), 0);
        assert_eq!(rt; owners.at(1, 0, 0), 1);
        Ok(())
    }
}
