ghost use Rattle.std.specs.Prelude.{◌≡◌, true};
ghost use Rattle.domino_tree.specs.Grammar.{is_program, program_tokens, are_words};
ghost use Rattle.domino_tree.specs.Weight.{is_light};

use crate::expr::Expr;
use mp5_words::Name;
use sqlite_items::Items;

/// A size or a start value in a declaration.
#[derive(Debug, Drop)]
pub enum Size {
    /// A number.
    Number(i32),
    /// A defined name.
    Word(Name),
}

/// The start value in a declaration.
#[derive(Debug, Drop)]
pub enum Start {
    /// None is given: each cell starts at 0.
    Absent,
    /// Each cell starts at this value.
    Plain(Size),
    /// The same, in braces.
    Braced(Size),
}

/// A declaration outside the packet's struct.
#[derive(Debug, Drop)]
pub enum Item {
    /// A name for a number.
    Define {
        name: Name,
        value: i32,
    },
    /// A register, or a register array where a length is given.
    Array {
        name: Name,
        length: Option<Size>,
        start: Start,
    },
}

/// The struct that names the packet's fields.
#[derive(Debug, Drop)]
pub struct PacketDecl {
    pub name: Name,
    pub fields: Items<Name>,
}

/// What an assignment writes.
#[derive(Debug, Drop)]
pub enum Target {
    /// A register.
    Word(Name),
    /// A field of the packet, as the packet's name and the field's.
    Field(Name, Name),
    /// A cell of a register array, as the array's name and the index.
    Cell(Name, Expr),
}

/// A statement.
#[cycle(statement)]
#[derive(Debug, Drop)]
pub enum Stmt {
    /// An assignment.
    Set(Target, Expr),
    /// A chain of conditions, each with its block, and the block that stands for none of them.
    If(Items<Arm>, Option<Items<Stmt>>),
}

/// A condition of a chain, and its block.
#[cycle(statement)]
#[derive(Debug, Drop)]
pub struct Arm {
    pub cond: Expr,
    pub body: Items<Stmt>,
}

/// The transaction: its own name, the struct that it takes, the packet's name, and its body.
#[derive(Debug, Drop)]
pub struct Function {
    pub name: Name,
    pub of: Name,
    pub packet: Name,
    pub body: Items<Stmt>,
}

/// A program: the items before the struct, the struct, the items after it, and the transaction. The
/// grammar derives its canonical tokens to it, their weight never exceeds 64, and each number among them
/// has 32 bits.
#[derive(Drop)]
pub struct Program {
    pub before: Items<Item>,
    pub packet: PacketDecl,
    pub after: Items<Item>,
    pub function: Function,
    ghost derived: { is_program before packet after function ≡ true },
    ghost light: { is_light (program_tokens before packet after function) ≡ true },
    ghost words: { are_words (program_tokens before packet after function) ≡ true },
}
