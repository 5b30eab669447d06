//! How staged code runs on an environment and the cells of a unit.
ghost use Rattle.std.specs.Prelude.{◌≡◌, ◌+◌, ◌*◌, ◌<◌, ◌≤◌, length, map, slice_set};
ghost use Rattle.code_forms.specs.Running.{Steps, RunsPart};
ghost use Rattle.code_forms.specs.Staged.{operand_word, point, block_start, group_start, IsStaged};
ghost use Rattle.code_forms.specs.StagedMeaning.{Leads, Always, IsUnplaced, Finishes};
ghost use Rattle.code_forms.specs.Spots.{AreSpots};
ghost use Rattle.code_forms.specs.Needed.{steps_of};

use crate::flat::Operand;
use crate::parts::HeaderStep;
use crate::spot::{Spot, operand_word, value_of};
use crate::staged::StagedCode;

// Writes a word to a place. Past them all nothing is written.
pub(crate) fn put(words: &mut [i32], place: usize, word: i32)
    ensures { words.new ≡ slice_set words.old place word }
{
    if place < words.len() {
        words[place] = word;
    }
}

impl StagedCode {
    /// Runs a block. There is one before each group, and one behind all.
    pub fn run_block(&self, b: u32, env: &mut [i32])
        requires { b ≤ length self.now.groups }
        ensures { Leads self.now Always (block_start self.now b) (group_start self.now b)
            env.old env.new }
    {
        self.run_part(2 * b as usize, env, &[]);
    }

    /// Runs a group at which the header has no place: each Load gives 0, and no Store writes.
    pub fn skip(&self, g: u32, env: &mut [i32])
        requires { g < length self.now.groups }
        ensures { Leads self.now (IsUnplaced self.now g)
            (group_start self.now g) (block_start self.now (g + 1)) env.old env.new }
    {
        self.run_part(2 * g as usize + 1, env, &[]);
    }

    /// Writes the last value of each field.
    pub fn finish(&self, env: &[i32], fields: &mut [i32])
        requires { length fields.old ≡ self.now.fields }
        ensures { Finishes self.now env.now fields.new }
    {
        write_last(self.last.as_slice(), env, fields);
    }

    // Runs the instruction at a place of the order, of these steps and with this table of arrays, which are the code's.
    fn step(&self, steps: &[HeaderStep], spots: &[Spot], p: usize, env: &mut [i32], cells: &[i32])
        requires place { p < length self.now.order }
        requires staged { IsStaged self.now }
        requires spots { AreSpots self.now spots.now }
        requires steps { steps.now ≡ steps_of self.now }
        ensures { Steps self.now p cells.now env.old env.new }
    {
        let step = &steps[p];
        let word = value_of(&step.instr, spots, env, cells);
        put(env, step.slot as usize, word);
    }

    // Runs the instructions of a part.
    pub(crate) fn run_part(&self, k: usize, env: &mut [i32], cells: &[i32])
        requires { k ≤ 2 * length self.now.groups }
        ensures runs { RunsPart self.now k cells.now env.old env.new }
        ensures laws { IsStaged self.now }
    {
        let from = self.point(k);
        let to = self.point(k + 1);
        let steps = self.steps.as_slice();
        let spots = self.spots.as_slice();
        for p in from..to {
            self.step(steps, spots, p, env, cells);
        }
    }

    // Where a part begins in the order: where the one before ends.
    fn point(&self, k: usize) -> usize
        requires { k ≤ 2 * length self.now.groups + 1 }
        ensures point { result ≡ point self.now k }
        ensures laws { IsStaged self.now }
    {
        if k == 0 {
            0
        } else {
            self.parts.ends.as_slice()[k - 1] as usize
        }
    }
}

// Writes what these operands are on words in slots.
fn write_last(last: &[Operand], env: &[i32], fields: &mut [i32])
    requires { length fields.old ≡ length last.now }
    ensures { fields.new ≡ map (operand_word env.now) last.now }
{
    for k in 0..fields.len() {
        fields[k] = operand_word(env, last[k]);
    }
}
