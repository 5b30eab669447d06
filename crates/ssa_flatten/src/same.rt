//! Which arrays have the same index.
ghost use Rattle.std.specs.Prelude.{◌≡◌, ◌<◌, ◌≤◌, ◌↔◌, IsTrue, Some, length};
ghost use Rattle.code_forms.specs.GuardMeaning.{index_at};
ghost use Rattle.ssa_flatten.specs.Flattened.{IsLeast};

use code_forms::{ArrayShape, GuardExpr};

// Whether two expressions are the same tree.
#[cycle(same)]
fn same(a: &GuardExpr, b: &GuardExpr) -> bool
    ensures { IsTrue result ↔ (a.now ≡ b.now) }
{
    match (a, b) {
        (GuardExpr::Number(m), GuardExpr::Number(n)) => m == n,
        (GuardExpr::Field(m), GuardExpr::Field(n)) => m == n,
        (GuardExpr::Cell(m), GuardExpr::Cell(n)) => m == n,
        (GuardExpr::One(o, a), GuardExpr::One(p, b)) => o == p && same(a.get(), b.get()),
        (GuardExpr::Two(o, a, c), GuardExpr::Two(p, b, d)) => {
            o == p && same(a.get(), b.get()) && same(c.get(), d.get())
        }
        (GuardExpr::Pick(a, c, e), GuardExpr::Pick(b, d, f)) => {
            same(a.get(), b.get()) && same(c.get(), d.get()) && same(e.get(), f.get())
        }
        (GuardExpr::Hash(j, a), GuardExpr::Hash(k, b)) => {
            j == k && same_all(a.as_slice(), b.as_slice())
        }
        _ => false,
    }
}

// Whether two lists of expressions are the same trees.
#[cycle(same)]
fn same_all(a: &[GuardExpr], b: &[GuardExpr]) -> bool
    ensures { IsTrue result ↔ (a.now ≡ b.now) }
{
    if a.len() != b.len() {
        return false;
    }
    for (i, x) in a.iter().enumerate() {
        if !same(x, &b[i]) {
            return false;
        }
    }
    true
}

// Whether an array has this index.
fn has_index(shape: &ArrayShape, index: &GuardExpr) -> bool
    ensures { IsTrue result ↔ (shape.now.index ≡ Some index.now) }
{
    match &shape.index {
        Some(other) => same(other, index),
        None => false,
    }
}

/// The least array with the same index as an array; the array itself where it has none.
pub(crate) fn least_same(shapes: &[ArrayShape], array: usize) -> usize
    requires { array < length shapes.now }
    ensures least { IsLeast shapes.now array result (index_at shapes.now array) }
    ensures within { result ≤ array }
{
    let Some(index) = &shapes[array].index else {
        return array;
    };
    for i in 0..array {
        if has_index(&shapes[i], index) {
            return i;
        }
    }
    array
}
