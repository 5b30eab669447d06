//! The bytes of a line, for which there is room before it is written.
ghost use Rattle.std.specs.Prelude.{◌≡◌, ◌≤◌, ◌+◌, ◌++◌, [], length, decimal, vec_len, vec_capacity, IfOk};
ghost use Rattle.std.specs.Fmt.{signed_decimal};
ghost use Rattle.report_text.specs.Room.{fields_room, arrays_room, room_of};

use domino_check::{ArrayInfo, Checked};
use domino_tree::print;
use itoa::Buffer;
use mp5_words::{Name, NoMemory};
use std::alloc::{AllocError, Global};
use std::marker::Model;

/// The bytes of a line, seen with how many there is room for.
#[derive(Drop)]
pub struct Line {
    bytes: Vec<u8>,
}

impl Model for Line {
    ghost use Rattle.std.specs.Prelude.{◌≡◌, length};
    ghost use Rattle.std.specs.Vec.{vec_len, vec_capacity};
    ghost use Rattle.report_text.specs.Room.{Written};

    ghost Value = { Written };

    ghost view = { λ l. record { text = l.bytes.items; room = vec_capacity l.bytes } };
}

impl Line {
    /// An empty line with room for the longest line of this program's texts.
    pub fn for_program(alloc: Global, checked: &Checked) -> Result<Line, NoMemory>
        ensures empty { IfOk result (λ line. line.text ≡ []) }
        ensures room { IfOk result (λ line. room_of checked.now ≤ line.room) }
    {
        let program = checked.program();
        let text = print(alloc, program)?.len();
        let fields = fields_room(program.packet.fields.as_slice())?;
        let arrays = arrays_room(checked.arrays())?;
        let room = add(text, add(fields, add(arrays, 1024)?)?)?;
        Ok(Line {
            bytes: Vec::with_capacity(alloc, room)?,
        })
    }

    /// The bytes of the line.
    pub fn bytes(&self) -> &[u8]
        ensures { result.now ≡ self.now.text }
    {
        &self.bytes
    }

    /// Takes all bytes away.
    pub(crate) fn clear(&mut self)
        ensures text { self.new.text ≡ [] }
        ensures room { self.new.room ≡ self.old.room }
    {
        self.bytes.clear();
    }

    /// Puts bytes at the end. Takes no memory.
    pub(crate) fn put(&mut self, piece: &[u8])
        requires { length self.old.text + length piece.now ≤ self.old.room }
        ensures text { self.new.text ≡ self.old.text ++ piece.now }
        ensures length { length self.new.text ≡ length self.old.text + length piece.now }
        ensures room { self.old.room ≤ self.new.room }
    {
        match self.bytes.extend_from_slice(piece) {
            Ok(()) => {}
            Err(AllocError) => unreachable!(),
        }
    }

    /// Puts a number at the end. Takes no memory.
    pub(crate) fn put_number(&mut self, number: u32)
        requires { length self.old.text + 10 ≤ self.old.room }
        ensures text { self.new.text ≡ self.old.text ++ decimal number }
        ensures length { length self.new.text ≤ length self.old.text + 10 }
        ensures room { self.old.room ≤ self.new.room }
    {
        let mut digits = Buffer::new();
        self.put(digits.format(number).as_bytes());
    }

    /// Puts a number of up to 64 bits at the end. Takes no memory.
    pub(crate) fn put_long(&mut self, number: u64)
        requires { length self.old.text + 20 ≤ self.old.room }
        ensures text { self.new.text ≡ self.old.text ++ decimal number }
        ensures length { length self.new.text ≤ length self.old.text + 20 }
        ensures room { self.old.room ≤ self.new.room }
    {
        let mut digits = Buffer::new();
        self.put(digits.format(number).as_bytes());
    }

    /// Puts a word at the end, with `-` where it is negative. Takes no memory.
    pub(crate) fn put_signed(&mut self, word: i32)
        requires { length self.old.text + 11 ≤ self.old.room }
        ensures text { self.new.text ≡ self.old.text ++ signed_decimal word }
        ensures length { length self.new.text ≤ length self.old.text + 11 }
        ensures room { self.old.room ≤ self.new.room }
    {
        let mut digits = Buffer::new();
        self.put(digits.format(word).as_bytes());
    }
}

// A sum that there can be memory for.
fn add(a: usize, b: usize) -> Result<usize, NoMemory>
    ensures { IfOk result (λ sum. sum ≡ a + b) }
{
    a.checked_add(b).ok_or(NoMemory)
}

// What the fields take in the line of a packet.
fn fields_room(names: &[Name]) -> Result<usize, NoMemory>
    ensures { IfOk result (λ room. room ≡ fields_room names.now) }
{
    let mut room = 0;
    for name in names {
        room = add(room, add(name.bytes().len(), 13)?)?;
    }
    Ok(room)
}

// What the arrays take in the line of a group.
fn arrays_room(infos: &[ArrayInfo]) -> Result<usize, NoMemory>
    ensures { IfOk result (λ room. room ≡ arrays_room infos.now) }
{
    let mut room = 0;
    for info in infos {
        room = add(room, add(info.name.bytes().len(), 1)?)?;
    }
    Ok(room)
}
