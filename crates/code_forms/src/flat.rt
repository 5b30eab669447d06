//! Flat code: single assignment and three addresses, with each array loaded once and stored once.

ghost use Rattle.std.specs.Prelude.{◌≡◌, true};
ghost use Rattle.code_forms.specs.FlatValid.{is_flat_code};
ghost use Rattle.code_forms.specs.SameIndexes.{SameWords};

use mp5_words::{HashKind, Op1, Op2};
use sqlite_items::Items;

/// What an instruction takes: the word of a slot, or a number. The first slots hold the header's fields, in order;
/// instruction `i` writes the slot `i` behind them, but for a Store, which writes none.
#[derive(Clone, Copy, Debug, PartialEq, Eq)]
pub enum Operand {
    Slot(u32),
    Number(i32),
}

/// An instruction. Arrays go by their numbers.
#[derive(Clone, Copy, Debug, PartialEq, Eq)]
pub enum Instr {
    /// An operator before an operand.
    One(Op1, Operand),
    /// An operator between two operands.
    Two(Op2, Operand, Operand),
    /// The second operand where the first isn't 0, else the third.
    Pick(Operand, Operand, Operand),
    /// The hash of the operands. The last one is 0 for a hash of two.
    Hash(HashKind, Operand, Operand, Operand),
    /// The operand.
    Move(Operand),
    /// 1 where neither the guard nor the condition is 0, else 0.
    Yes(Operand, Operand),
    /// 1 where the guard isn't 0 and the condition is, else 0.
    No(Operand, Operand),
    /// The array's cell that the operand names: its remainder by the array's length.
    Index(u32, Operand),
    /// The word of the array's cell at its Index.
    Load(u32),
    /// Writes the operand to that cell.
    Store(u32, Operand),
}

/// An array of flat code.
#[derive(Debug, Drop)]
pub struct FlatArray {
    /// How many cells it has.
    pub length: u32,
    /// The word that each cell starts at.
    pub start: i32,
    /// The least touched array whose index is the same tree; its own number where it isn't touched.
    pub same: u32,
    /// The guards under which it is touched.
    pub touched: Items<Operand>,
    /// The numbers of the instructions that make its later copies, in order.
    pub copies: Items<u32>,
}

/// A transaction as instructions, each of which writes a slot of its own. Who has one has it that it is valid.
#[derive(Drop)]
pub struct FlatCode {
    /// How many fields the packet has.
    pub fields: u32,
    /// The arrays, in order of declaration.
    pub arrays: Items<FlatArray>,
    pub instrs: Items<Instr>,
    /// The last value of each field.
    pub last: Items<Operand>,
    pub ghost valid: { is_flat_code fields arrays instrs last ≡ true },
    pub ghost words: { SameWords fields arrays instrs },
}
