//! Guarded code: assignments and conditions in text order, without branches.

ghost use Rattle.std.specs.Prelude.{◌≡◌, true};
ghost use Rattle.code_forms.specs.GuardValid.{is_guard_code};

use mp5_words::{HashKind, Op1, Op2};
use sqlite_items::{Boxed, Items};

/// An expression over the fields of a packet and the copies of its cells.
#[derive(Debug, Drop)]
pub enum GuardExpr {
    /// A number.
    Number(i32),
    /// A field of the packet.
    Field(u32),
    /// The latest copy of an array's cell.
    Cell(u32),
    /// An operator before an expression.
    One(Op1, Boxed<GuardExpr>),
    /// An operator between two expressions.
    Two(Op2, Boxed<GuardExpr>, Boxed<GuardExpr>),
    /// `c ? a : b`, as the three expressions.
    Pick(Boxed<GuardExpr>, Boxed<GuardExpr>, Boxed<GuardExpr>),
    /// The hash of the arguments.
    Hash(HashKind, Items<GuardExpr>),
}

/// A line of guarded code. It touches the arrays in it under its guard. Guard 0 is always 1.
#[derive(Debug, Drop)]
pub enum GuardLine {
    /// A condition, which makes the guards `yes`, 1 where the guard `under` is 1 and the condition isn't 0, and
    /// `no`, 1 where `under` is 1 and the condition is 0.
    Test {
        cond: GuardExpr,
        under: u32,
        yes: u32,
        no: u32,
    },
    /// An assignment: the field is the value where the guard is 1.
    SetField {
        field: u32,
        guard: u32,
        value: GuardExpr,
    },
    /// An assignment: the array's copy is the value where the guard is 1.
    SetCell {
        array: u32,
        guard: u32,
        value: GuardExpr,
    },
}

/// An array of guarded code.
#[derive(Debug, Drop)]
pub struct ArrayShape {
    /// How many cells it has.
    pub length: u32,
    /// The word that each cell starts at.
    pub start: i32,
    /// The index of all its accesses; None exactly where no line touches it.
    pub index: Option<GuardExpr>,
}

/// A transaction as guarded lines in text order. Who has one has it that it is valid.
#[derive(Drop)]
pub struct GuardCode {
    /// How many fields the packet has.
    pub fields: u32,
    /// The arrays, in order of declaration.
    pub arrays: Items<ArrayShape>,
    pub lines: Items<GuardLine>,
    pub ghost valid: { is_guard_code fields arrays lines ≡ true },
}
