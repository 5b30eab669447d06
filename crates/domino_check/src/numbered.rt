ghost use Rattle.std.specs.Prelude.{◌≡◌, ◌↔◌, IsTrue};

use mp5_words::{HashKind, Op1, Op2};
use sqlite_items::{Boxed, Items};

/// An expression in which fields and arrays are numbers in order of declaration, defined names are their
/// numbers, and no bracket and no index stands.
#[derive(Debug, Drop)]
pub enum CheckedExpr {
    /// A number.
    Number(i32),
    /// A field of the packet.
    Field(u32),
    /// The cell of an array that the array's index names.
    Cell(u32),
    /// An operator before an expression.
    One(Op1, Boxed<CheckedExpr>),
    /// An operator between two expressions.
    Two(Op2, Boxed<CheckedExpr>, Boxed<CheckedExpr>),
    /// `c ? a : b`, as the three expressions.
    Pick(Boxed<CheckedExpr>, Boxed<CheckedExpr>, Boxed<CheckedExpr>),
    /// The hash of the arguments.
    Hash(HashKind, Items<CheckedExpr>),
}

/// A statement, in numbers.
#[cycle(checked_stmt)]
#[derive(Debug, Drop)]
pub enum CheckedStmt {
    /// An assignment to a field.
    SetField(u32, CheckedExpr),
    /// An assignment to the cell of an array that the array's index names.
    SetCell(u32, CheckedExpr),
    /// A chain of conditions, each with its block, and the block that stands for none of them.
    If(Items<CheckedArm>, Option<Items<CheckedStmt>>),
}

/// A condition of a chain, and its block, in numbers.
#[cycle(checked_stmt)]
#[derive(Debug, Drop)]
pub struct CheckedArm {
    pub cond: CheckedExpr,
    pub body: Items<CheckedStmt>,
}

/// Whether two expressions are the same tree.
#[cycle(same)]
pub(crate) fn same(a: &CheckedExpr, b: &CheckedExpr) -> bool
    ensures { IsTrue result ↔ (a.now ≡ b.now) }
{
    match (a, b) {
        (CheckedExpr::Number(m), CheckedExpr::Number(n)) => m == n,
        (CheckedExpr::Field(m), CheckedExpr::Field(n)) => m == n,
        (CheckedExpr::Cell(m), CheckedExpr::Cell(n)) => m == n,
        (CheckedExpr::One(o, a), CheckedExpr::One(p, b)) => o == p && same(a.get(), b.get()),
        (CheckedExpr::Two(o, a, c), CheckedExpr::Two(p, b, d)) => {
            o == p && same(a.get(), b.get()) && same(c.get(), d.get())
        }
        (CheckedExpr::Pick(a, c, e), CheckedExpr::Pick(b, d, f)) => {
            same(a.get(), b.get()) && same(c.get(), d.get()) && same(e.get(), f.get())
        }
        (CheckedExpr::Hash(j, a), CheckedExpr::Hash(k, b)) => {
            j == k && same_all(a.as_slice(), b.as_slice())
        }
        _ => false,
    }
}

// Whether two lists of expressions are the same trees.
#[cycle(same)]
fn same_all(a: &[CheckedExpr], b: &[CheckedExpr]) -> bool
    ensures { IsTrue result ↔ (a.now ≡ b.now) }
{
    if a.len() != b.len() {
        return false;
    }
    for (i, x) in a.iter().enumerate() {
        if !same(x, &b[i]) {
            return false;
        }
    }
    true
}
