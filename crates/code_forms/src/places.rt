//! The header run: what a header alone tells, and the places that it has at the groups.
ghost use Rattle.std.specs.Prelude.{◌≡◌, ◌<◌, ◌≤◌, ◌-◌, ◌++◌, ℕ, pos, length, fold, replicate, slice_index};
ghost use Rattle.std.specs.List.{list_any};
ghost use Rattle.code_forms.specs.Staged.{slot_count, group_at, guards_of};
ghost use Rattle.code_forms.specs.StagedMeaning.{is_open, place, place_on, place_code, HasUnits, PlacesAreIndexes};
ghost use Rattle.code_forms.specs.Spots.{spot_step, AreLengths};

use crate::flat::FlatArray;
use crate::parts::HeaderStep;
use crate::running::put;
use crate::serving::is_touched;
use crate::spot::{Spot, index_at, spot_of, value_of};
use crate::staged::StagedCode;

impl StagedCode {
    /// Writes for each group 0 where the header has no place at it, else the unit's number plus 1; 0 behind all
    /// groups. What stands in `room` afterwards is open.
    pub fn places(&self, header: &[i32], room: &mut [i32], out: &mut [u32; 16])
        requires header { length header.now ≡ self.now.fields }
        requires room { length room.old ≡ slot_count self.now }
        ensures places { (g : ℕ) → g < 16 →
            slice_index out.new g ≡ place_code (place self.now header.now g) }
        ensures rest { (g : ℕ) → length self.now.groups ≤ g → g < 16 → slice_index out.new g ≡ 0 }
        ensures few { length self.now.groups ≤ 16 }
        ensures units { HasUnits self.now header.now }
        ensures indexes { PlacesAreIndexes self.now }
    {
        lay_out(header, room);
        run_header(self.needed.as_slice(), self.spots.as_slice(), room);
        *out = [0; 16];
        for g in 0..self.groups() {
            out[g as usize] = self.group_place(g, room);
        }
    }

    // The place at a group as a number, where the words of the header run are in the slots.
    fn group_place(&self, g: u32, room: &[i32]) -> u32
        requires { g < length self.now.groups }
        ensures { result ≡ place_code (place_on self.now room.now (group_at self.now g)) }
    {
        let group = self.group(g);
        let arrays = group.arrays.as_slice();
        if !some_touched(self.arrays.as_slice(), arrays, room) {
            0
        } else if group.sharded {
            let index = spot_of(self.spots.as_slice(), arrays[0]).index;
            index_at(room, index) + 1
        } else {
            1
        }
    }
}

// Puts the header into its slots, and 0 into all others.
fn lay_out(header: &[i32], room: &mut [i32])
    requires { length header.now ≤ length room.old }
    ensures { room.new ≡ header.now ++ replicate (length room.old - length header.now) (pos 0) }
{
    let (front, rest) = room.split_at_mut(header.len());
    front.copy_from_slice(header);
    rest.fill(0);
}

// Runs the steps, one after another.
fn run_header(steps: &[HeaderStep], spots: &[Spot], room: &mut [i32])
    requires { AreLengths spots.now }
    ensures { room.new ≡ fold (spot_step spots.now) room.old steps.now }
{
    for step in steps {
        let word = value_of(&step.instr, spots, room, &[]);
        put(room, step.slot as usize, word);
    }
}

// Whether some array of these is touched.
fn some_touched(flat: &[FlatArray], arrays: &[u32], room: &[i32]) -> bool
    ensures { result ≡ list_any (λ a. is_open room.now (guards_of flat.now a)) arrays.now }
{
    for array in arrays {
        if is_touched(flat, *array, room) {
            return true;
        }
    }
    false
}
