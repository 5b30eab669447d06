//! The lines of the accesses, read from where the last one stood.
ghost use Rattle.std.specs.Prelude.{◌≡◌, ◌≤◌, ◌<◌, ◌+◌, ◌*◌, ◌∷◌, [], length, slice_index};
ghost use Rattle.code_forms.specs.Staged.{first_array, group_at};
ghost use Rattle.report_text.specs.AnswerLines.{entry_lines, lines_below, named_unit, packet_at};
ghost use Rattle.report_text.specs.Told.{HasTrace, IsAtEntry, IsOfProgram, Puts};

use crate::code_text::in_set;
use crate::line::Line;
use crate::run_text::put_serve;
use code_forms::StagedCode;
use domino_check::Checked;
use domino_eval::place_of;
use switch_net::Answer;

// What stands for the pipe where an arrival has no place at a group.
const NO_PIPE: u8 = 255;

/// Where the reading of the accesses stands: at an entry, behind so many lines.
#[derive(Clone, Copy, Debug, PartialEq, Eq)]
pub(crate) struct EntryPlace {
    entry: usize,
    before: u64,
}

impl EntryPlace {
    /// Before the first line.
    pub(crate) fn start() -> EntryPlace
        ensures { result ≡ record { entry = 0; before = 0 } }
    {
        EntryPlace {
            entry: 0,
            before: 0,
        }
    }

    /// Puts line `k` of the accesses' lines, or says how many lines are left to pass.
    pub(crate) fn put_line(
        &mut self,
        checked: &Checked,
        code: &StagedCode,
        answer: &Answer,
        k: u64,
        into: &mut Line,
    ) -> Option<u64>
        requires program { IsOfProgram checked.now code.now answer.now }
        requires trace { HasTrace code.now answer.now }
        requires place { IsAtEntry (entry_lines checked.now code.now answer.now)
            (length answer.now.by.items) self.old.entry self.old.before }
        requires empty { into.old.text ≡ [] }
        requires room { 1024 ≤ into.old.room }
        ensures place { IsAtEntry (entry_lines checked.now code.now answer.now)
            (length answer.now.by.items) self.new.entry self.new.before }
        ensures line { Puts (lines_below (entry_lines checked.now code.now answer.now)
            (length answer.now.by.items)) k result into.new.text }
        ensures room { into.old.room ≤ into.new.room }
    {
        if k < self.before {
            *self = EntryPlace::start();
        }
        while self.entry < answer.by.len() {
            if answer.by[self.entry] != NO_PIPE {
                if k == self.before {
                    put_access(checked, code, answer, self.entry, into);
                    return None;
                }
                self.before += 1;
            }
            self.entry += 1;
        }
        Some(k - self.before)
    }
}

// The first array of a group.
fn first_array(code: &StagedCode, g: u32) -> u32
    requires { g < length code.now.groups }
    ensures { result ≡ first_array (group_at code.now g) }
{
    let set = code.arrays(g);
    for a in 0..code.array_count() {
        if in_set(set, a as usize) {
            return a;
        }
    }
    0
}

// The unit of a group that these fields name.
fn named_unit(checked: &Checked, code: &StagedCode, g: u32, fields: &[i32]) -> u32
    requires { g < length code.now.groups }
    ensures { result ≡ named_unit checked.now code.now g fields.now }
{
    if code.units(g) == 1 {
        0
    } else {
        place_of(checked, first_array(code, g), fields)
    }
}

/// The words of a packet of so many fields.
pub(crate) fn packet_at<'a>(answer: &'a Answer, width: usize, t: u32) -> &'a [i32]
    requires all { length answer.now.packets.items ≡ answer.now.arrivals * width }
    requires few { width ≤ 32 }
    requires arrival { t < answer.now.arrivals }
    ensures words { result.now ≡ packet_at width answer.now.packets.items t }
    ensures width { length result.now ≡ width }
{
    let first = t as usize * width;
    &answer.packets[first..first + width]
}

// Puts the line of an entry.
fn put_access(checked: &Checked, code: &StagedCode, answer: &Answer, entry: usize, into: &mut Line)
    requires program { IsOfProgram checked.now code.now answer.now }
    requires trace { HasTrace code.now answer.now }
    requires entry { entry < length answer.now.by.items }
    requires served { slice_index answer.now.by.items entry ≡ 255 → ⊥ }
    requires empty { into.old.text ≡ [] }
    requires room { 1024 ≤ into.old.room }
    ensures text { entry_lines checked.now code.now answer.now entry ≡ into.new.text ∷ [] }
    ensures room { into.old.room ≤ into.new.room }
{
    let groups = code.groups() as usize;
    prove!(entry / groups < answer.arrivals as usize);
    let t = (entry / groups) as u32;
    let g = (entry % groups) as u32;
    let fields = packet_at(answer, code.fields() as usize, t);
    let unit = named_unit(checked, code, g, fields);
    put_serve(into, t, g, unit, answer.by[entry], answer.touched[entry]);
}
