//! The text that tells of a program's code, line by line.
ghost use Rattle.std.specs.Prelude.{◌≡◌, ◌≤◌, ◌<◌, ◌+◌, ℕ, [], length, IfOk};
ghost use Rattle.std.specs.Bool.{OnTrue, OnFalse};
ghost use Rattle.report_text.specs.Room.{room_of};
ghost use Rattle.report_text.specs.PlanReading.{BelongTogether, IsLine, IsBehind, line_at, lines_in};

use crate::canonical::canonical_lines;
use crate::code_text::{put_code, put_group};
use crate::cursor::Cursor;
use crate::line::Line;
use capture_io::Capture;
use code_forms::StagedCode;
use domino_check::Checked;
use mp5_words::NoMemory;
use sqlite_items::Items;
use std::alloc::Global;
use std::marker::Model;

/// The text that tells of a program's code: the canonical text, the numbers of its instructions, stages and groups, its
/// groups, and the places of each header. It keeps where the last line stood, so lines that are read in order run each
/// header's places once; the lines don't depend on it.
#[derive(Drop)]
pub struct PlanText<'a> {
    checked: &'a Checked,
    code: &'a StagedCode,
    canonical: Vec<Items<u8>>,
    cursor: Cursor<'a>,
}

impl<'a> Model for PlanText<'a> {
    ghost use Rattle.std.specs.Prelude.{◌≡◌};
    ghost use Rattle.domino_tree.specs.Text.{text_of};
    ghost use Rattle.report_text.specs.PlanLines.{lines_of};
    ghost use Rattle.report_text.specs.PlanReading.{Planned, planned_code};

    ghost Value = { Planned };

    ghost coded = { planned_code };

    ghost view = { λ p. record {
      program = p.checked.now;
      code = p.code.now;
      headers = p.cursor.headers;
    } };

    ghost invariant = { λ p.
        (p.canonical.items ≡ lines_of (text_of p.checked.now)) × (p.cursor.code ≡ p.code.now) };
}

impl<'a> PlanText<'a> {
    /// The text of a program, of its code and of a capture's packets.
    pub fn new(
        alloc: Global,
        checked: &'a Checked,
        code: &'a StagedCode,
        capture: &'a Capture,
    ) -> Result<PlanText<'a>, NoMemory>
        requires { BelongTogether checked.now code.now capture.now }
        ensures { IfOk result (λ text. text ≡ record {
          program = checked.now;
          code = code.now;
          headers = capture.now;
        }) }
    {
        let canonical = canonical_lines(alloc, checked.program())?;
        let cursor = Cursor::new(alloc, code, capture)?;
        Ok(PlanText {
            checked,
            code,
            canonical,
            cursor,
        })
    }

    /// A number of lines that the text has at most: each header has at most one place at each group. Takes no memory.
    pub fn most_lines(&self) -> u64
        ensures { length (lines_in self.now) ≤ result }
    {
        let head = self.canonical.len() as u64;
        let groups = u64::from(self.code.groups());
        let headers = u64::from(self.cursor.count());
        let places = groups * headers;
        head + groups + places + 2
    }

    /// Writes line `k` of the text, and says whether there is one. Where there is none the line is empty. Takes no memory.
    pub fn line(&mut self, k: u64, into: &mut Line) -> bool
        requires { room_of self.old.program ≤ into.old.room }
        ensures there { OnTrue result (IsLine (lines_in self.old) k into.new.text) }
        ensures behind { OnFalse result (IsBehind (lines_in self.old) k into.new.text) }
        ensures same { self.new ≡ self.old }
        ensures room { into.old.room ≤ into.new.room }
    {
        into.clear();
        let head = self.canonical.len() as u64;
        let groups = u64::from(self.code.groups());
        if k < head {
            put_whole(into, &self.canonical, k as usize);
            true
        } else if k == head {
            put_code(into, self.code);
            true
        } else if k - head <= groups {
            let g = (k - head - 1) as u32;
            put_group(into, self.checked.arrays(), self.code, g);
            true
        } else {
            self.cursor.line(k - head - groups - 1, into)
        }
    }
}

// Puts one of these lines.
fn put_whole(into: &mut Line, lines: &[Items<u8>], k: usize)
    requires empty { into.old.text ≡ [] }
    requires inside { k < length lines.now }
    requires room { length (line_at lines.now k) ≤ into.old.room }
    ensures line { IsLine lines.now k into.new.text }
    ensures room { into.old.room ≤ into.new.room }
{
    into.put(lines[k].as_slice());
}
