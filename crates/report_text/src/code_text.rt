//! The lines of the text of a program's code, one by one.
ghost use Rattle.std.specs.Prelude.{◌≡◌, ◌≤◌, ◌<◌, ◌+◌, ◌++◌, [], length};
ghost use Rattle.domino_names.specs.Infos.{infos_of};
ghost use Rattle.code_forms.specs.Staged.{group_at};
ghost use Rattle.report_text.specs.Room.{arrays_room};
ghost use Rattle.report_text.specs.Report.{done_line};
ghost use Rattle.report_text.specs.PlanLines.{spaced_number, code_line, group_line, in_set, names_in, place_line};

use crate::line::Line;
use code_forms::StagedCode;
use domino_check::ArrayInfo;

/// A space and a number.
pub(crate) fn put_spaced(into: &mut Line, number: u32)
    requires { length into.old.text + 11 ≤ into.old.room }
    ensures text { into.new.text ≡ into.old.text ++ spaced_number number }
    ensures length { length into.new.text ≤ length into.old.text + 11 }
    ensures room { into.old.room ≤ into.new.room }
{
    into.put(b" ");
    into.put_number(number);
}

/// `code I S G`: the numbers of instructions, stages and groups.
pub(crate) fn put_code(into: &mut Line, code: &StagedCode)
    requires empty { into.old.text ≡ [] }
    requires room { 1024 ≤ into.old.room }
    ensures text { into.new.text ≡ code_line code.now }
    ensures room { into.old.room ≤ into.new.room }
{
    into.put(b"code");
    put_spaced(into, code.instructions());
    put_spaced(into, code.stages());
    put_spaced(into, code.groups());
    into.put(b"\n");
}

/// Whether an array is in a set.
pub(crate) fn in_set(set: u16, array: usize) -> bool
    requires { array < 16 }
    ensures { result ≡ in_set set array }
{
    set >> array & 1 == 1
}

// A space and the name of each array of a set.
fn put_names(into: &mut Line, set: u16, infos: &[ArrayInfo])
    requires few { length infos.now ≤ 16 }
    requires room { length into.old.text + arrays_room infos.now ≤ into.old.room }
    ensures text { into.new.text ≡ into.old.text ++ names_in set 0 infos.now }
    ensures length { length into.new.text ≤ length into.old.text + arrays_room infos.now }
    ensures room { into.old.room ≤ into.new.room }
{
    for (array, info) in infos.iter().enumerate() {
        if in_set(set, array) {
            into.put(b" ");
            into.put(info.name.bytes());
        }
    }
}

/// `group G depth D units N :`, and the names of its arrays in order of declaration.
pub(crate) fn put_group(into: &mut Line, infos: &[ArrayInfo], code: &StagedCode, g: u32)
    requires empty { into.old.text ≡ [] }
    requires few { length infos.now ≤ 16 }
    requires room { arrays_room infos.now + 1024 ≤ into.old.room }
    requires group { g < length code.now.groups }
    ensures text { into.new.text ≡ group_line infos.now code.now g }
    ensures room { into.old.room ≤ into.new.room }
{
    into.put(b"group");
    put_spaced(into, g);
    into.put(b" depth");
    put_spaced(into, code.depth(g));
    into.put(b" units");
    put_spaced(into, code.units(g));
    into.put(b" :");
    put_names(into, code.arrays(g), infos);
    into.put(b"\n");
}

/// `place T G U`: arrival, group and unit.
pub(crate) fn put_place(into: &mut Line, t: u32, g: u32, unit: u32)
    requires empty { into.old.text ≡ [] }
    requires room { 1024 ≤ into.old.room }
    ensures text { into.new.text ≡ place_line t g unit }
    ensures room { into.old.room ≤ into.new.room }
{
    into.put(b"place");
    put_spaced(into, t);
    put_spaced(into, g);
    put_spaced(into, unit);
    into.put(b"\n");
}

/// `done N`.
pub(crate) fn put_done(into: &mut Line, count: u32)
    requires empty { into.old.text ≡ [] }
    requires room { 1024 ≤ into.old.room }
    ensures text { into.new.text ≡ done_line count }
    ensures room { into.old.room ≤ into.new.room }
{
    into.put(b"done ");
    into.put_number(count);
    into.put(b"\n");
}
