//! What stands on standard error when a call ends.
ghost use Rattle.std.specs.Prelude.{◌≡◌, ◌<◌, ◌/◌, ◌%◌, decimal};
ghost use Rattle.std.specs.Fmt.{signed_decimal};
ghost use Rattle.std.specs.List.{flat_map};
ghost use Rattle.switch_runner.specs.Causes.{line};
ghost use Rattle.report_text.specs.RefusalLine.{hex_digit, hex_word, with_one, with_two, with_name, with_pair, what_word, text_line, check_line, program_line, refusal_line};
ghost use Rattle.switch_runner.specs.Writing.{Writes};

use crate::help::help_text;
use crate::outside::{Failed, Sink};
use crate::status::Status;
use crate::transfer::write_all;
use capture_io::CaptureFault;
use domino_check::{CheckFault, What};
use domino_compile::ProgramFault;
use domino_syntax::TextFault;
use itoa::Buffer;
use mp5_words::Name;

// Writes a text.
fn write_text<K: Sink>(err: &mut K, text: &[u8]) -> Result<(), Failed>
    ensures { Writes text.now (K.seen err.old) (K.seen err.new) result }
{
    write_all(err, text)
}

// Writes pieces one after another.
fn write_pieces<K: Sink>(err: &mut K, pieces: &[&[u8]]) -> Result<(), Failed>
    ensures { Writes (flat_map (λ piece. piece.now) pieces.now)
        (K.seen err.old) (K.seen err.new) result }
{
    for piece in pieces {
        write_text(err, piece)?;
    }
    Ok(())
}

// Writes a line of a text and a value.
fn write_one<K: Sink>(err: &mut K, text: &[u8], value: u64) -> Result<(), Failed>
    ensures { Writes (with_one text.now value) (K.seen err.old) (K.seen err.new) result }
{
    let mut digits = Buffer::new();
    write_pieces(err, &[text, digits.format(value).as_bytes(), b"\n"])
}

// Writes a line of a text and two values.
fn write_two<K: Sink>(err: &mut K, text: &[u8], first: u32, second: u32) -> Result<(), Failed>
    ensures { Writes (with_two text.now first second) (K.seen err.old) (K.seen err.new) result }
{
    let mut before = Buffer::new();
    let mut after = Buffer::new();
    write_pieces(
        err,
        &[
            text,
            before.format(first).as_bytes(),
            b" ",
            after.format(second).as_bytes(),
            b"\n",
        ],
    )
}

// The hexadecimal digit of this weight.
fn hex_digit(word: u32, weight: u32) -> u8
    requires { 0 < weight }
    ensures { result ≡ hex_digit (word / weight % 16) }
{
    let digit = (word / weight % 16) as u8;
    if digit < 10 {
        b'0' + digit
    } else {
        b'a' - 10 + digit
    }
}

// The eight hexadecimal digits of a word.
fn hex_word(word: u32) -> [u8; 8]
    ensures { result ≡ hex_word word }
{
    [
        hex_digit(word, 0x1000_0000),
        hex_digit(word, 0x0100_0000),
        hex_digit(word, 0x0010_0000),
        hex_digit(word, 0x0001_0000),
        hex_digit(word, 0x1000),
        hex_digit(word, 0x0100),
        hex_digit(word, 0x0010),
        hex_digit(word, 1),
    ]
}

// Writes the line of a text that isn't read.
fn write_text_refusal<K: Sink>(err: &mut K, fault: &TextFault) -> Result<(), Failed>
    ensures { Writes (text_line fault.now) (K.seen err.old) (K.seen err.new) result }
{
    match fault {
        TextFault::TooLong(n) => write_one(err, b"mp5: program 1 ", *n),
        TextFault::BadToken(at) => write_one(err, b"mp5: program 2 ", u64::from(*at)),
        TextFault::TooDeep(n) => write_one(err, b"mp5: program 4 ", u64::from(*n)),
        TextFault::Syntax(n) => write_one(err, b"mp5: program 3 ", u64::from(*n)),
        TextFault::NoMemory => write_text(err, b"mp5: no memory\n"),
    }
}

// Writes a line of a text and a name.
fn write_name<K: Sink>(err: &mut K, text: &[u8], name: &Name) -> Result<(), Failed>
    ensures { Writes (with_name text.now name.now) (K.seen err.old) (K.seen err.new) result }
{
    write_pieces(err, &[text, name.bytes(), b"\n"])
}

// Writes a line of a text, and a word and digits with a space between them.
fn write_pair<K: Sink>(err: &mut K, text: &[u8], word: &[u8], digits: &[u8]) -> Result<(), Failed>
    ensures { Writes (with_pair text.now word.now digits.now)
        (K.seen err.old) (K.seen err.new) result }
{
    write_pieces(err, &[text, word, b" ", digits, b"\n"])
}

// Writes the line of a length that is refused.
fn write_length<K: Sink>(err: &mut K, text: &[u8], name: &Name, length: i32) -> Result<(), Failed>
    ensures { Writes (with_pair text.now name.now (signed_decimal length))
        (K.seen err.old) (K.seen err.new) result }
{
    let mut digits = Buffer::new();
    write_pair(err, text, name.bytes(), digits.format(length).as_bytes())
}

// What there are too many of, as a word.
fn what_word(what: What) -> &'static [u8]
    ensures { result.now ≡ what_word what }
{
    match what {
        What::Defines => b"defines",
        What::Fields => b"fields",
        What::Arrays => b"arrays",
        What::Cells => b"cells",
    }
}

// Writes the line of a count that is past its limit.
fn write_count<K: Sink>(err: &mut K, text: &[u8], what: What, n: u64) -> Result<(), Failed>
    ensures { Writes (with_pair text.now (what_word what) (decimal n))
        (K.seen err.old) (K.seen err.new) result }
{
    let mut digits = Buffer::new();
    write_pair(err, text, what_word(what), digits.format(n).as_bytes())
}

// Writes the line of a program that a check refuses.
fn write_check_refusal<K: Sink>(err: &mut K, fault: &CheckFault) -> Result<(), Failed>
    ensures { Writes (check_line fault.now) (K.seen err.old) (K.seen err.new) result }
{
    match fault {
        CheckFault::Twice(name) => write_name(err, b"mp5: program 5 ", name),
        CheckFault::Unknown(name) => write_name(err, b"mp5: program 6 ", name),
        CheckFault::WrongKind(name) => write_name(err, b"mp5: program 7 ", name),
        CheckFault::Arity(name) => write_name(err, b"mp5: program 8 ", name),
        CheckFault::BadLength(name, length) => {
            write_length(err, b"mp5: program 9 ", name, *length)
        }
        CheckFault::TooMany(what, n) => write_count(err, b"mp5: program 10 ", *what, *n),
        CheckFault::IndexDiffers(name) => write_name(err, b"mp5: program 11 ", name),
        CheckFault::IndexMoves(name) => write_name(err, b"mp5: program 12 ", name),
        CheckFault::NoMemory => write_text(err, b"mp5: no memory\n"),
    }
}

// Writes the line of a refused program.
fn write_program_refusal<K: Sink>(err: &mut K, fault: &ProgramFault) -> Result<(), Failed>
    ensures { Writes (program_line fault.now) (K.seen err.old) (K.seen err.new) result }
{
    match fault {
        ProgramFault::Text(fault) => write_text_refusal(err, fault),
        ProgramFault::Check(fault) => write_check_refusal(err, fault),
        ProgramFault::TooLarge(n) => write_one(err, b"mp5: program 13 ", u64::from(*n)),
        ProgramFault::NoMemory => write_text(err, b"mp5: no memory\n"),
    }
}

// Writes the line of a refused capture.
fn write_refusal<K: Sink>(err: &mut K, fault: &CaptureFault) -> Result<(), Failed>
    ensures { Writes (refusal_line fault.now) (K.seen err.old) (K.seen err.new) result }
{
    match fault {
        CaptureFault::TooLong(n) => write_one(err, b"mp5: capture 1 ", *n),
        CaptureFault::ShortHeader(n) => write_one(err, b"mp5: capture 2 ", u64::from(*n)),
        CaptureFault::PcapNg => write_text(err, b"mp5: capture 3\n"),
        CaptureFault::BadMagic(word) => {
            write_pieces(err, &[b"mp5: capture 4 ", &hex_word(*word), b"\n"])
        }
        CaptureFault::Version(major, minor) => {
            write_two(
                err,
                b"mp5: capture 5 ",
                u32::from(*major),
                u32::from(*minor),
            )
        }
        CaptureFault::LinkType(n) => write_one(err, b"mp5: capture 6 ", u64::from(*n)),
        CaptureFault::LongRecord(at, n) => write_two(err, b"mp5: capture 7 ", *at, *n),
        CaptureFault::Truncated(at) => write_one(err, b"mp5: capture 8 ", u64::from(*at)),
        CaptureFault::TooMany(n) => write_one(err, b"mp5: capture 9 ", u64::from(*n)),
        CaptureFault::NoMemory => write_text(err, b"mp5: no memory\n"),
    }
}

/// Writes the line that tells of a status, the text of the help for Help, and nothing for Done. Takes no
/// memory.
pub(crate) fn write_line<K: Sink>(err: &mut K, status: &Status) -> Result<(), Failed>
    ensures { Writes (line status.now) (K.seen err.old) (K.seen err.new) result }
{
    match status {
        Status::Done => write_text(err, b""),
        Status::Help => write_text(err, help_text().as_bytes()),
        Status::Words => write_text(err, b"mp5: words\n"),
        Status::Program(fault) => write_program_refusal(err, fault),
        Status::Capture(fault) => write_refusal(err, fault),
        Status::ReadFault => write_text(err, b"mp5: read fault\n"),
        Status::WriteFault => write_text(err, b"mp5: write fault\n"),
        Status::NoMemory => write_text(err, b"mp5: no memory\n"),
    }
}
