//! Sixteen marks for each instruction.
ghost use Rattle.std.specs.Prelude.{◌≡◌, ◌<◌, length};
ghost use Rattle.dependence.specs.Tables.{has};
ghost use Rattle.flat_graph.specs.ReachedArrays.{row};

use std::marker::Model;

/// A mark for each array.
pub(crate) type Row = [bool; 16];

/// For each instruction of flat code some of the arrays, at most sixteen.
#[derive(Drop)]
pub struct Reached {
    pub(crate) rows: Vec<Row>,
}

impl Model for Reached {
    ghost use Rattle.flat_graph.specs.ReachedArrays.{Rows};

    ghost Value = { Rows };

    ghost view = { λ r. record { rows = r.rows.items } };
}

impl Reached {
    /// Whether the array is one of the instruction's.
    pub fn has(&self, instruction: u32, array: u32) -> bool
        requires instruction { instruction < length self.now.rows }
        requires array { array < 16 }
        ensures { result ≡ has (row self.now.rows instruction) array }
    {
        self.rows[instruction as usize][array as usize]
    }
}
