//! The lines of the cells that differ from their start values, read from where the last one stood.
ghost use Rattle.std.specs.Prelude.{◌≡◌, ◌≤◌, ◌<◌, ◌+◌, [], length, not};
ghost use Rattle.std.specs.Ordering.{int_eq};
ghost use Rattle.mp5_words.specs.Cells.{word_at};
ghost use Rattle.report_text.specs.Report.{cell_count, cell_name, register_line};
ghost use Rattle.report_text.specs.Told.{HaveRoom, IsAtCell, Puts, cells_told};

use crate::line::Line;
use crate::run_text::put_register;
use domino_check::ArrayInfo;

/// Where the reading of the cells stands: at a cell of an array, with its word at a place of all words, behind so many
/// lines.
#[derive(Clone, Copy, Debug, PartialEq, Eq)]
pub(crate) struct CellPlace {
    array: usize,
    cell: u32,
    at: usize,
    before: u64,
}

impl CellPlace {
    /// Before the first line.
    pub(crate) fn start() -> CellPlace
        ensures { result ≡ record { array = 0; cell = 0; at = 0; before = 0 } }
    {
        CellPlace {
            array: 0,
            cell: 0,
            at: 0,
            before: 0,
        }
    }

    /// Puts line `k` of the cells' lines, or says how many lines are left to pass.
    pub(crate) fn put_line(
        &mut self,
        infos: &[ArrayInfo],
        words: &[i32],
        k: u64,
        into: &mut Line,
    ) -> Option<u64>
        requires cells { length words.now ≡ cell_count infos.now }
        requires place { IsAtCell infos.now words.now
            self.old.array self.old.cell self.old.at self.old.before }
        requires empty { into.old.text ≡ [] }
        requires room { HaveRoom infos.now into.old.room }
        ensures place { IsAtCell infos.now words.now
            self.new.array self.new.cell self.new.at self.new.before }
        ensures line { Puts (cells_told infos.now words.now) k result into.new.text }
        ensures room { into.old.room ≤ into.new.room }
    {
        if k < self.before {
            *self = CellPlace::start();
        }
        while self.array < infos.len() {
            let info = &infos[self.array];
            if self.cell == info.length {
                self.array += 1;
                self.cell = 0;
                continue;
            }
            if differs(info, words, self.at) {
                if k == self.before {
                    put_cell(into, info, self.cell, words, self.at);
                    return None;
                }
                self.before += 1;
            }
            self.cell += 1;
            self.at += 1;
        }
        Some(k - self.before)
    }
}

// Whether the word at a place differs from the start value.
fn differs(info: &ArrayInfo, words: &[i32], at: usize) -> bool
    requires { at < length words.now }
    ensures { result ≡ not (int_eq (word_at words.now at) info.now.start) }
{
    words[at] != info.start
}

// Puts the line of a cell, whose word is at a place.
fn put_cell(into: &mut Line, info: &ArrayInfo, cell: u32, words: &[i32], at: usize)
    requires empty { into.old.text ≡ [] }
    requires room { length info.now.name + 1024 ≤ into.old.room }
    requires word { at < length words.now }
    ensures text { into.new.text
        ≡ register_line (cell_name info.now cell) (word_at words.now at) }
    ensures room { into.old.room ≤ into.new.room }
{
    put_register(into, info, cell, words[at]);
}
