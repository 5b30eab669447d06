//! The lines of the report of a run, one by one.
ghost use Rattle.std.specs.Prelude.{◌≡◌, ◌≤◌, ◌<◌, ◌+◌, ◌*◌, ◌++◌, ◌∷◌, [], length, map, flat_map, decimal};
ghost use Rattle.std.specs.Fmt.{signed_decimal};
ghost use Rattle.report_text.specs.Room.{fields_room};
ghost use Rattle.report_text.specs.Report.{label, fields_text, packet_line, cell_name, register_line};
ghost use Rattle.report_text.specs.AnswerLines.{move_text, moves_line, serve_line};

use crate::code_text::put_spaced;
use crate::line::Line;
use domino_check::ArrayInfo;
use mp5_words::Name;
use shard_rounds::Move;

// A field: a space, its name, `=` and its value.
fn put_field(into: &mut Line, name: &Name, value: i32)
    requires { length into.old.text + (length name.now + 13) ≤ into.old.room }
    ensures text { into.new.text ≡ into.old.text ++ (label name.now ++ signed_decimal value) }
    ensures length { length into.new.text ≤ length into.old.text + (length name.now + 13) }
    ensures room { into.old.room ≤ into.new.room }
{
    into.put(b" ");
    into.put(name.bytes());
    into.put(b"=");
    into.put_signed(value);
}

// The fields in order of declaration.
fn put_fields(into: &mut Line, names: &[Name], values: &[i32])
    requires same { length values.now ≡ length names.now }
    requires room { length into.old.text + fields_room names.now ≤ into.old.room }
    ensures text { into.new.text ≡ into.old.text ++ fields_text (map label names.now) values.now }
    ensures length { length into.new.text ≤ length into.old.text + fields_room names.now }
    ensures room { into.old.room ≤ into.new.room }
{
    for (i, name) in names.iter().enumerate() {
        put_field(into, name, values[i]);
    }
}

/// `pkt T`, and the fields.
pub(crate) fn put_packet(into: &mut Line, names: &[Name], t: u32, values: &[i32])
    requires empty { into.old.text ≡ [] }
    requires same { length values.now ≡ length names.now }
    requires room { fields_room names.now + 1024 ≤ into.old.room }
    ensures text { into.new.text ≡ packet_line (map label names.now) t values.now }
    ensures room { into.old.room ≤ into.new.room }
{
    into.put(b"pkt ");
    into.put_number(t);
    put_fields(into, names, values);
    into.put(b"\n");
}

// The number of a cell: `[I]`.
fn put_index(into: &mut Line, cell: u32)
    requires { length into.old.text + 12 ≤ into.old.room }
    ensures text { into.new.text ≡ into.old.text ++ (91 ∷ (decimal cell ++ (93 ∷ []))) }
    ensures length { length into.new.text ≤ length into.old.text + 12 }
    ensures room { into.old.room ≤ into.new.room }
{
    into.put(b"[");
    into.put_number(cell);
    into.put(b"]");
}

// The name of a cell: `A`, where the array is declared without a length, and else `A[I]`.
fn put_cell_name(into: &mut Line, info: &ArrayInfo, cell: u32)
    requires { length into.old.text + (length info.now.name + 12) ≤ into.old.room }
    ensures text { into.new.text ≡ into.old.text ++ cell_name info.now cell }
    ensures length { length into.new.text
        ≤ length into.old.text + (length info.now.name + 12) }
    ensures room { into.old.room ≤ into.new.room }
{
    into.put(info.name.bytes());
    if !info.scalar {
        put_index(into, cell);
    }
}

/// `reg A=V` or `reg A[I]=V`.
pub(crate) fn put_register(into: &mut Line, info: &ArrayInfo, cell: u32, value: i32)
    requires empty { into.old.text ≡ [] }
    requires room { length info.now.name + 1024 ≤ into.old.room }
    ensures text { into.new.text ≡ register_line (cell_name info.now cell) value }
    ensures room { into.old.room ≤ into.new.room }
{
    into.put(b"reg ");
    put_cell_name(into, info, cell);
    into.put(b"=");
    into.put_signed(value);
    into.put(b"\n");
}

// ` G U P Q`: group, unit, giver and taker of a move.
fn put_move(into: &mut Line, step: &Move)
    requires { length into.old.text + 44 ≤ into.old.room }
    ensures text { into.new.text ≡ into.old.text ++ move_text step.now }
    ensures length { length into.new.text ≤ length into.old.text + 44 }
    ensures room { into.old.room ≤ into.new.room }
{
    put_spaced(into, step.group);
    put_spaced(into, step.unit);
    put_spaced(into, step.giver);
    put_spaced(into, step.taker);
}

// The moves in order.
fn put_moves(into: &mut Line, moves: &[Move])
    requires { length into.old.text + length moves.now * 44 ≤ into.old.room }
    ensures text { into.new.text ≡ into.old.text ++ flat_map move_text moves.now }
    ensures length { length into.new.text ≤ length into.old.text + length moves.now * 44 }
    ensures room { into.old.room ≤ into.new.room }
{
    for step in moves {
        put_move(into, step);
    }
}

/// `plan E :`, and the moves in order.
pub(crate) fn put_plan(into: &mut Line, round: u64, moves: &[Move])
    requires empty { into.old.text ≡ [] }
    requires few { length moves.now ≤ 16 }
    requires room { 1024 ≤ into.old.room }
    ensures text { into.new.text ≡ moves_line round moves.now }
    ensures room { into.old.room ≤ into.new.room }
{
    into.put(b"plan ");
    into.put_long(round);
    into.put(b" :");
    put_moves(into, moves);
    into.put(b"\n");
}

/// `serve T G U P B`: arrival, group and unit, the pipe that served it, and the set of the arrays that were touched.
pub(crate) fn put_serve(into: &mut Line, t: u32, g: u32, unit: u32, by: u8, touched: u16)
    requires empty { into.old.text ≡ [] }
    requires room { 1024 ≤ into.old.room }
    ensures text { into.new.text ≡ serve_line t g unit by touched }
    ensures room { into.old.room ≤ into.new.room }
{
    into.put(b"serve");
    put_spaced(into, t);
    put_spaced(into, g);
    put_spaced(into, unit);
    put_spaced(into, u32::from(by));
    put_spaced(into, u32::from(touched));
    into.put(b"\n");
}
