//! The lines of the sums: of each field over all packets, and of each array over all its cells.
ghost use Rattle.std.specs.Prelude.{◌≡◌, ◌≤◌, ◌<◌, ◌+◌, ◌*◌, ◌++◌, [], length, codes};
ghost use Rattle.capture_io.specs.Rows.{rows};
ghost use Rattle.domino_names.specs.Infos.{infos_of};
ghost use Rattle.mp5_words.specs.Cells.{cells_at};
ghost use Rattle.switch_net.specs.Marks.{word_sum};
ghost use Rattle.report_text.specs.Room.{fields_room, room_of};
ghost use Rattle.report_text.specs.Report.{array_lines, cell_count, cells_in, column, field_lines, sum_line};
ghost use Rattle.report_text.specs.Told.{HaveRoom, Puts};

use crate::accesses::packet_at;
use crate::line::Line;
use domino_check::{ArrayInfo, Checked};
use mp5_words::Name;
use switch_net::Answer;

// The sum of the words of a field in all packets, reduced to a word.
fn field_sum(answer: &Answer, width: usize, field: usize) -> i32
    requires packets { length answer.now.packets.items ≡ answer.now.arrivals * width }
    requires few { width ≤ 32 }
    requires field { field < width }
    ensures { result ≡ word_sum (column field
        (rows answer.now.arrivals width answer.now.packets.items)) }
{
    let mut sum = 0i32;
    for t in 0..answer.arrivals {
        sum = sum.wrapping_add(packet_at(answer, width, t)[field]);
    }
    sum
}

// The cells of an array, where those of all arrays stand one after another.
fn array_cells<'a>(infos: &[ArrayInfo], words: &'a [i32], array: usize) -> &'a [i32]
    requires cells { length words.now ≡ cell_count infos.now }
    requires array { array < length infos.now }
    ensures { result.now ≡ cells_at (cells_in infos.now words.now) array }
{
    let mut first = 0;
    for info in &infos[..array] {
        first += info.length as usize;
    }
    &words[first..first + infos[array].length as usize]
}

// The sum of words, reduced to a word.
fn word_sum(words: &[i32]) -> i32
    ensures { result ≡ word_sum words.now }
{
    let mut sum = 0i32;
    for word in words {
        sum = sum.wrapping_add(*word);
    }
    sum
}

// `field F=V`
fn put_field(into: &mut Line, name: &Name, sum: i32)
    requires empty { into.old.text ≡ [] }
    requires room { length name.now + 1024 ≤ into.old.room }
    ensures text { into.new.text ≡ sum_line (codes "field ") name.now sum }
    ensures room { into.old.room ≤ into.new.room }
{
    into.put(b"field ");
    into.put(name.bytes());
    into.put(b"=");
    into.put_signed(sum);
    into.put(b"\n");
}

// `array A=V`
fn put_array(into: &mut Line, name: &Name, sum: i32)
    requires empty { into.old.text ≡ [] }
    requires room { length name.now + 1024 ≤ into.old.room }
    ensures text { into.new.text ≡ sum_line (codes "array ") name.now sum }
    ensures room { into.old.room ≤ into.new.room }
{
    into.put(b"array ");
    into.put(name.bytes());
    into.put(b"=");
    into.put_signed(sum);
    into.put(b"\n");
}

// Puts line `k` of the fields' sums, or says how many lines are left to pass.
fn put_field_line(names: &[Name], answer: &Answer, k: u64, into: &mut Line) -> Option<u64>
    requires packets { length answer.now.packets.items ≡ answer.now.arrivals * length names.now }
    requires few { length names.now ≤ 32 }
    requires empty { into.old.text ≡ [] }
    requires room { fields_room names.now + 1024 ≤ into.old.room }
    ensures line { Puts (field_lines names.now 0
        (rows answer.now.arrivals (length names.now) answer.now.packets.items))
        k result into.new.text }
    ensures room { into.old.room ≤ into.new.room }
{
    let count = names.len() as u64;
    if k >= count {
        return Some(k - count);
    }
    let field = k as usize;
    let sum = field_sum(answer, names.len(), field);
    put_field(into, &names[field], sum);
    None
}

// Puts line `k` of the arrays' sums, or says how many lines are left to pass.
fn put_array_line(infos: &[ArrayInfo], words: &[i32], k: u64, into: &mut Line) -> Option<u64>
    requires cells { length words.now ≡ cell_count infos.now }
    requires empty { into.old.text ≡ [] }
    requires room { HaveRoom infos.now into.old.room }
    ensures line { Puts (array_lines infos.now (cells_in infos.now words.now))
        k result into.new.text }
    ensures room { into.old.room ≤ into.new.room }
{
    let count = infos.len() as u64;
    if k >= count {
        return Some(k - count);
    }
    let array = k as usize;
    let sum = word_sum(array_cells(infos, words, array));
    put_array(into, &infos[array].name, sum);
    None
}

/// Puts line `k` of the sums' lines, or says how many lines are left to pass.
pub(crate) fn put_sums(checked: &Checked, answer: &Answer, k: u64, into: &mut Line) -> Option<u64>
    requires packets { length answer.now.packets.items
        ≡ answer.now.arrivals * length checked.now.packet.fields }
    requires cells { length answer.now.cells.items ≡ cell_count (infos_of checked.now) }
    requires empty { into.old.text ≡ [] }
    requires room { room_of checked.now ≤ into.old.room }
    ensures line { Puts (field_lines checked.now.packet.fields 0
        (rows answer.now.arrivals (length checked.now.packet.fields) answer.now.packets.items)
        ++ array_lines (infos_of checked.now) (cells_in (infos_of checked.now) answer.now.cells.items))
        k result into.new.text }
    ensures room { into.old.room ≤ into.new.room }
{
    let names = checked.program().packet.fields.as_slice();
    match put_field_line(names, answer, k, into) {
        None => None,
        Some(left) => put_array_line(checked.arrays(), &answer.cells, left, into),
    }
}
