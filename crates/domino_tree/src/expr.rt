use mp5_words::{Name, Op1, Op2};
use sqlite_items::{Boxed, Items};

/// An expression.
#[derive(Debug, Drop)]
pub enum Expr {
    /// A number.
    Number(i32),
    /// A defined name, or the value of a register.
    Word(Name),
    /// A field of the packet, as the packet's name and the field's.
    Field(Name, Name),
    /// A cell of a register array, as the array's name and the index.
    Cell(Name, Boxed<Expr>),
    /// An operator before an expression.
    One(Op1, Boxed<Expr>),
    /// An operator between two expressions.
    Two(Op2, Boxed<Expr>, Boxed<Expr>),
    /// `c ? a : b`, as the three expressions.
    Pick(Boxed<Expr>, Boxed<Expr>, Boxed<Expr>),
    /// A call, as the function's name and the arguments.
    Call(Name, Items<Expr>),
    /// An expression in round brackets.
    Group(Boxed<Expr>),
}
