//! Codelets, and where each instruction of flat code runs.
ghost use Rattle.std.specs.Prelude.{◌≡◌, true};
ghost use Rattle.code_forms.specs.LayoutValid.{are_codelets, is_layout};

use sqlite_items::Items;

/// The codelets of flat code: one number for each instruction, the same for instructions that depend on each other
/// both ways. They are numbered from 0 by their first instruction.
#[derive(Drop)]
pub struct Codelets {
    pub of: Items<u32>,
    pub ghost valid: { are_codelets of ≡ true },
}

/// Where an instruction runs: in a block of instructions outside every group, or in a group. Block 0 runs first, then
/// group 0, block 1, group 1, and so on.
#[derive(Clone, Copy, Debug, PartialEq, Eq)]
pub enum Spot {
    Block(u32),
    Group(u32),
}

/// The layout of flat code.
#[derive(Drop)]
pub struct Layout {
    /// Where each instruction runs.
    pub spot: Items<Spot>,
    /// The depth of each codelet: the stage at which it runs.
    pub depth: Items<u32>,
    /// The arrays of each group: bit `a` for array `a`.
    pub arrays: Items<u16>,
    /// How many stages there are.
    pub stages: u32,
    pub ghost valid: { is_layout spot depth arrays stages ≡ true },
}
