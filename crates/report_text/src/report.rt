//! The report of a run, line by line.
ghost use Rattle.std.specs.Prelude.{◌≡◌, ◌≤◌, ◌+◌, ◌*◌, ◌++◌, ◌∷◌, [], All, true, length, map};
ghost use Rattle.std.specs.Bool.{OnTrue, OnFalse};
ghost use Rattle.capture_io.specs.Rows.{rows};
ghost use Rattle.domino_names.specs.Infos.{infos_of};
ghost use Rattle.switch_net.specs.Answer.{moves_of};
ghost use Rattle.report_text.specs.Room.{fields_room, room_of};
ghost use Rattle.report_text.specs.Report.{cell_count, done_line, label, packet_lines};
ghost use Rattle.report_text.specs.PlanReading.{IsLine, IsBehind};
ghost use Rattle.report_text.specs.AnswerLines.{answer_body, answer_lines, answer_trace, entry_lines, moves_lines, wanted};
ghost use Rattle.report_text.specs.Told.{AreFewMoves, HasTrace, HaveRoom, IsAtCell, IsAtEntry, IsOfProgram, Puts, cells_told};

use crate::accesses::{EntryPlace, packet_at};
use crate::cells::CellPlace;
use crate::code_text::put_done;
use crate::line::Line;
use crate::run_text::{put_packet, put_plan};
use crate::sums::put_sums;
use code_forms::StagedCode;
use domino_check::Checked;
use mp5_words::Name;
use shard_rounds::Plan;
use std::marker::Model;
use switch_net::Answer;

/// What a report tells beside the packets, the cells and the number of arrivals: with the trace the plans and the
/// accesses; in brief the sums in place of the packets and the cells.
#[derive(Clone, Copy, Debug, PartialEq, Eq)]
pub struct Style {
    pub trace: bool,
    pub brief: bool,
}

/// The report of a run: its packets and the cells that differ from their start values, or in brief their sums, with the
/// trace its plans and its accesses, and the number of arrivals. It keeps where the last lines of the cells and of the accesses stood, so lines
/// that are read in order search nothing; the lines don't depend on it. Seen as its lines.
#[derive(Drop)]
pub struct Report<'a> {
    checked: &'a Checked,
    code: &'a StagedCode,
    answer: &'a Answer,
    style: Style,
    cells: CellPlace,
    accesses: EntryPlace,
}

impl<'a> Model for Report<'a> {
    ghost use Rattle.report_text.specs.Room.{room_of};
    ghost use Rattle.report_text.specs.AnswerLines.{answer_lines};
    ghost use Rattle.report_text.specs.Told.{Told, IsReport};

    ghost Value = { Told };

    ghost view = { λ r. record {
      lines = answer_lines r.checked.now r.code.now r.answer.now r.style;
      room = room_of r.checked.now;
    } };

    ghost invariant = { λ r. IsReport r.checked.now r.code.now r.answer.now r.style r.cells r.accesses };
}

impl<'a> Report<'a> {
    /// The report of an answer of the program's code. Takes no memory.
    pub fn new(
        checked: &'a Checked,
        code: &'a StagedCode,
        answer: &'a Answer,
        style: Style,
    ) -> Report<'a>
        requires program { IsOfProgram checked.now code.now answer.now }
        requires trace { style.trace ≡ true → HasTrace code.now answer.now }
        ensures lines { result.lines ≡ answer_lines checked.now code.now answer.now style }
        ensures room { result.room ≡ room_of checked.now }
    {
        Report {
            checked,
            code,
            answer,
            style,
            cells: CellPlace::start(),
            accesses: EntryPlace::start(),
        }
    }

    /// A number of lines that the report has at most. Takes no memory.
    pub fn most_lines(&self) -> u64
        ensures { length self.now.lines ≤ result }
    {
        let cells = self.answer.cells.as_slice().len() as u64;
        let plans = self.answer.plans.as_slice().len() as u64;
        let entries = self.answer.by.as_slice().len() as u64;
        let fields = self.checked.program().packet.fields.as_slice().len() as u64;
        let arrays = self.checked.arrays().len() as u64;
        u64::from(self.answer.arrivals) + cells + (fields + arrays) + (plans + entries) + 1
    }

    /// Writes line `k` of the report, and says whether there is one. Where there is none the line is empty. Takes no
    /// memory.
    pub fn line(&mut self, k: u64, into: &mut Line) -> bool
        requires { self.old.room ≤ into.old.room }
        ensures there { OnTrue result (IsLine self.old.lines k into.new.text) }
        ensures behind { OnFalse result (IsBehind self.old.lines k into.new.text) }
        ensures same { self.new ≡ self.old }
        ensures room { into.old.room ≤ into.new.room }
    {
        into.clear();
        let cells = &mut self.cells;
        match put_body(self.checked, self.answer, self.style, cells, k, into) {
            None => true,
            Some(left) => {
                let accesses = &mut self.accesses;
                match put_trace(
                    self.checked,
                    self.code,
                    self.answer,
                    self.style,
                    accesses,
                    left,
                    into,
                ) {
                    None => true,
                    Some(left) => put_last(self.answer.arrivals, left, into),
                }
            }
        }
    }
}

// Puts line `k` of the packets' lines, or says how many lines are left to pass.
fn put_packet_line(names: &[Name], answer: &Answer, k: u64, into: &mut Line) -> Option<u64>
    requires all { length answer.now.packets.items ≡ answer.now.arrivals * length names.now }
    requires few { length names.now ≤ 32 }
    requires empty { into.old.text ≡ [] }
    requires room { fields_room names.now + 1024 ≤ into.old.room }
    ensures line { Puts (packet_lines (map label names.now) 0
        (rows answer.now.arrivals (length names.now) answer.now.packets.items))
        k result into.new.text }
    ensures room { into.old.room ≤ into.new.room }
{
    let count = u64::from(answer.arrivals);
    if k >= count {
        return Some(k - count);
    }
    let t = k as u32;
    put_packet(into, names, t, packet_at(answer, names.len(), t));
    None
}

// Puts line `k` of the lines of the packets and the cells, or says how many lines are left to pass.
fn put_run(
    checked: &Checked,
    answer: &Answer,
    cells: &mut CellPlace,
    k: u64,
    into: &mut Line,
) -> Option<u64>
    requires packets { length answer.now.packets.items
        ≡ answer.now.arrivals * length checked.now.packet.fields }
    requires cells { length answer.now.cells.items ≡ cell_count (infos_of checked.now) }
    requires place { IsAtCell (infos_of checked.now) answer.now.cells.items
        cells.old.array cells.old.cell cells.old.at cells.old.before }
    requires empty { into.old.text ≡ [] }
    requires room { room_of checked.now ≤ into.old.room }
    ensures place { IsAtCell (infos_of checked.now) answer.now.cells.items
        cells.new.array cells.new.cell cells.new.at cells.new.before }
    ensures line { Puts (packet_lines (map label checked.now.packet.fields) 0
        (rows answer.now.arrivals (length checked.now.packet.fields) answer.now.packets.items)
        ++ cells_told (infos_of checked.now) answer.now.cells.items) k result into.new.text }
    ensures room { into.old.room ≤ into.new.room }
{
    let names = checked.program().packet.fields.as_slice();
    match put_packet_line(names, answer, k, into) {
        None => None,
        Some(left) => cells.put_line(checked.arrays(), &answer.cells, left, into),
    }
}

// Puts line `k` of what the run ends with: in brief of the sums, else of the packets and the cells; or says how many lines
// are left to pass.
fn put_body(
    checked: &Checked,
    answer: &Answer,
    style: Style,
    cells: &mut CellPlace,
    k: u64,
    into: &mut Line,
) -> Option<u64>
    requires packets { length answer.now.packets.items
        ≡ answer.now.arrivals * length checked.now.packet.fields }
    requires cells { length answer.now.cells.items ≡ cell_count (infos_of checked.now) }
    requires place { IsAtCell (infos_of checked.now) answer.now.cells.items
        cells.old.array cells.old.cell cells.old.at cells.old.before }
    requires empty { into.old.text ≡ [] }
    requires room { room_of checked.now ≤ into.old.room }
    ensures place { IsAtCell (infos_of checked.now) answer.now.cells.items
        cells.new.array cells.new.cell cells.new.at cells.new.before }
    ensures line { Puts (answer_body checked.now answer.now style.brief) k result into.new.text }
    ensures room { into.old.room ≤ into.new.room }
{
    if style.brief {
        put_sums(checked, answer, k, into)
    } else {
        put_run(checked, answer, cells, k, into)
    }
}

// Puts line `k` of the plans' lines, or says how many lines are left to pass.
fn put_plan_line(plans: &[Plan], k: u64, into: &mut Line) -> Option<u64>
    requires few { All (λ plan. length plan.moves.items ≤ 16) plans.now }
    requires empty { into.old.text ≡ [] }
    requires room { 1024 ≤ into.old.room }
    ensures line { Puts (moves_lines 1 (moves_of plans.now)) k result into.new.text }
    ensures room { into.old.room ≤ into.new.room }
{
    let count = plans.len() as u64;
    if k >= count {
        return Some(k - count);
    }
    put_plan(into, k + 1, &plans[k as usize].moves);
    None
}

// Puts line `k` of the lines of the plans and the accesses, where these are wanted, or says how many lines are left to
// pass.
fn put_trace(
    checked: &Checked,
    code: &StagedCode,
    answer: &Answer,
    style: Style,
    accesses: &mut EntryPlace,
    k: u64,
    into: &mut Line,
) -> Option<u64>
    requires program { IsOfProgram checked.now code.now answer.now }
    requires trace { style.trace ≡ true → HasTrace code.now answer.now }
    requires place { IsAtEntry (entry_lines checked.now code.now answer.now)
        (length answer.now.by.items) accesses.old.entry accesses.old.before }
    requires empty { into.old.text ≡ [] }
    requires room { 1024 ≤ into.old.room }
    ensures place { IsAtEntry (entry_lines checked.now code.now answer.now)
        (length answer.now.by.items) accesses.new.entry accesses.new.before }
    ensures line { Puts (wanted style.trace (answer_trace checked.now code.now answer.now))
        k result into.new.text }
    ensures room { into.old.room ≤ into.new.room }
{
    if !style.trace {
        return Some(k);
    }
    prove!(code.groups() <= 16);
    match put_plan_line(&answer.plans, k, into) {
        None => None,
        Some(left) => accesses.put_line(checked, code, answer, left, into),
    }
}

// Puts the last line, where it is the next one.
fn put_last(count: u32, left: u64, into: &mut Line) -> bool
    requires empty { into.old.text ≡ [] }
    requires room { 1024 ≤ into.old.room }
    ensures there { OnTrue result (IsLine (done_line count ∷ []) left into.new.text) }
    ensures behind { OnFalse result (IsBehind (done_line count ∷ []) left into.new.text) }
    ensures room { into.old.room ≤ into.new.room }
{
    if left > 0 {
        return false;
    }
    put_done(into, count);
    true
}
