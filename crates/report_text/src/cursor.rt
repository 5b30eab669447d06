//! The lines of the places, read from where the last one stood.
ghost use Rattle.std.specs.Prelude.{◌≡◌, ◌≤◌, ◌<◌, ◌+◌, ℕ, [], length, slice_index, IfOk, IfSome, None};
ghost use Rattle.std.specs.Bool.{OnTrue, OnFalse};
ghost use Rattle.capture_io.specs.declared.limits.TheConstants.{MAX_RECORDS};
ghost use Rattle.code_forms.specs.Staged.{slot_count};
ghost use Rattle.report_text.specs.PlanReading.{AreHeaders, ArePlacesOf, IsLine, IsBehind, numbers_lines, lines_before, later_lines};

use crate::code_text::{put_done, put_place};
use crate::line::Line;
use capture_io::Capture;
use code_forms::StagedCode;
use mp5_words::NoMemory;
use std::alloc::Global;
use std::marker::Model;

/// Where the reading of the places stands: at an arrival, with its places as numbers, behind so many lines.
#[derive(Drop)]
pub(crate) struct Cursor<'a> {
    code: &'a StagedCode,
    capture: &'a Capture,
    arrival: u32,
    before: u64,
    places: [u32; 16],
    room: Vec<i32>,
}

impl<'a> Model for Cursor<'a> {
    ghost use Rattle.std.specs.Prelude.{◌≡◌, length};
    ghost use Rattle.code_forms.specs.Staged.{slot_count};
    ghost use Rattle.report_text.specs.PlanReading.{Reading, IsReading};

    ghost Value = { Reading };

    ghost view = { λ c. record {
      code = c.code.now;
      headers = c.capture.now;
      arrival = c.arrival;
      before = c.before;
      places = c.places;
    } };

    ghost invariant = { λ c. IsReading record {
      code = c.code.now;
      headers = c.capture.now;
      arrival = c.arrival;
      before = c.before;
      places = c.places;
    } × (length c.room.items ≡ slot_count c.code.now) };
}

impl<'a> Cursor<'a> {
    /// Before the first line.
    pub(crate) fn new(
        alloc: Global,
        code: &'a StagedCode,
        capture: &'a Capture,
    ) -> Result<Cursor<'a>, NoMemory>
        requires { AreHeaders code.now.fields capture.now }
        ensures code { IfOk result (λ cursor. cursor.code ≡ code.now) }
        ensures headers { IfOk result (λ cursor. cursor.headers ≡ capture.now) }
    {
        let mut room = vec![in alloc; 0; code.slots() as usize]?;
        let places = places_at(code, capture, 0, &mut room);
        Ok(Cursor {
            code,
            capture,
            arrival: 0,
            before: 0,
            places,
            room,
        })
    }

    /// How many headers there are.
    pub(crate) fn count(&self) -> u32
        ensures count { result ≡ length self.now.headers }
        ensures limit { result ≤ MAX_RECORDS }
    {
        self.capture.count()
    }

    /// Puts line `k` of the places' lines and the last line, if there is one.
    pub(crate) fn line(&mut self, k: u64, into: &mut Line) -> bool
        requires empty { into.old.text ≡ [] }
        requires room { 1024 ≤ into.old.room }
        ensures there { OnTrue result
            (IsLine (later_lines self.old.code self.old.headers) k into.new.text) }
        ensures behind { OnFalse result
            (IsBehind (later_lines self.old.code self.old.headers) k into.new.text) }
        ensures code { self.new.code ≡ self.old.code }
        ensures headers { self.new.headers ≡ self.old.headers }
        ensures room { into.old.room ≤ into.new.room }
    {
        if k < self.before {
            self.go(0, 0);
        }
        let count = self.capture.count();
        while self.arrival < count {
            match self.line_here(k, into) {
                None => return true,
                Some(before) => self.go(self.arrival + 1, before),
            }
        }
        if k > self.before {
            return false;
        }
        put_done(into, count);
        true
    }

    // Puts line `k` where it is one of the arrival's. Else says how many lines are before the next arrival.
    fn line_here(&self, k: u64, into: &mut Line) -> Option<u64>
        requires arrival { self.now.arrival < length self.now.headers }
        requires before { self.now.before ≤ k }
        requires empty { into.old.text ≡ [] }
        requires room { 1024 ≤ into.old.room }
        ensures found { result ≡ None
            → IsLine (later_lines self.now.code self.now.headers) k into.new.text }
        ensures next { IfSome result (λ next. next
            ≡ lines_before self.now.code (self.now.arrival + 1) self.now.headers) }
        ensures later { IfSome result (λ next. next ≤ k) }
        ensures empty { IfSome result (λ next. into.new.text ≡ []) }
        ensures room { into.old.room ≤ into.new.room }
    {
        let left = k - self.before;
        match put_nth(into, self.arrival, &self.places, self.code.groups(), left) {
            None => None,
            Some(rest) => Some(k - rest),
        }
    }

    // Goes to an arrival, before which there are so many lines.
    fn go(&mut self, arrival: u32, before: u64)
        requires inside { arrival ≤ length self.old.headers }
        requires counted { before ≡ lines_before self.old.code arrival self.old.headers }
        ensures code { self.new.code ≡ self.old.code }
        ensures headers { self.new.headers ≡ self.old.headers }
        ensures arrival { self.new.arrival ≡ arrival }
        ensures before { self.new.before ≡ before }
    {
        self.arrival = arrival;
        self.before = before;
        self.places = places_at(self.code, self.capture, arrival, &mut self.room);
    }
}

// The places of an arrival as numbers, if there is such an arrival.
fn places_at(code: &StagedCode, capture: &Capture, t: u32, room: &mut [i32]) -> [u32; 16]
    requires wide { AreHeaders code.now.fields capture.now }
    requires room { length room.old ≡ slot_count code.now }
    ensures places { ArePlacesOf code.now capture.now t result }
    ensures few { t < length capture.now → length code.now.groups ≤ 16 }
    ensures room { length room.new ≡ length room.old }
{
    let mut places = [0; 16];
    if t < capture.count() {
        code.places(capture.header(t), room, &mut places);
    }
    places
}

// Puts line `left` of the places of an arrival at the first groups. Where there are fewer, says how many lines are
// left behind them.
fn put_nth(into: &mut Line, t: u32, places: &[u32; 16], groups: u32, left: u64) -> Option<u64>
    requires empty { into.old.text ≡ [] }
    requires room { 1024 ≤ into.old.room }
    requires groups { groups ≤ 16 }
    ensures found { result ≡ None → IsLine (numbers_lines t places.now groups) left into.new.text }
    ensures behind { IfSome result (λ rest.
        left ≡ length (numbers_lines t places.now groups) + rest) }
    ensures empty { IfSome result (λ rest. into.new.text ≡ []) }
    ensures room { into.old.room ≤ into.new.room }
{
    let mut rest = left;
    for g in 0..groups {
        let place = places[g as usize];
        if place == 0 {
            continue;
        }
        if rest == 0 {
            put_place(into, t, g, place - 1);
            return None;
        }
        rest -= 1;
    }
    Some(rest)
}
