//! Whether expressions are the same trees.
ghost use Rattle.std.specs.Prelude.{◌≡◌, ◌↔◌, IsTrue};
ghost use Rattle.std.specs.Option.{option_copied};

use domino_check::CheckedExpr;

/// Whether two indexes are the same tree, or neither is there.
pub(crate) fn same_index(a: Option<&CheckedExpr>, b: Option<&CheckedExpr>) -> bool
    ensures { IsTrue result ↔ (option_copied a.entry ≡ option_copied b.entry) }
{
    match (a, b) {
        (Some(a), Some(b)) => same(a, b),
        (None, None) => true,
        _ => false,
    }
}

// Whether two expressions are the same tree.
#[cycle(same)]
fn same(a: &CheckedExpr, b: &CheckedExpr) -> bool
    ensures { IsTrue result ↔ (a.now ≡ b.now) }
{
    match (a, b) {
        (CheckedExpr::Number(m), CheckedExpr::Number(n)) => m == n,
        (CheckedExpr::Field(m), CheckedExpr::Field(n)) => m == n,
        (CheckedExpr::Cell(m), CheckedExpr::Cell(n)) => m == n,
        (CheckedExpr::One(o, a), CheckedExpr::One(p, b)) => o == p && same(a.get(), b.get()),
        (CheckedExpr::Two(o, a, c), CheckedExpr::Two(p, b, d)) => {
            o == p && same(a.get(), b.get()) && same(c.get(), d.get())
        }
        (CheckedExpr::Pick(a, c, e), CheckedExpr::Pick(b, d, f)) => {
            same(a.get(), b.get()) && same(c.get(), d.get()) && same(e.get(), f.get())
        }
        (CheckedExpr::Hash(j, a), CheckedExpr::Hash(k, b)) => {
            j == k && same_all(a.as_slice(), b.as_slice())
        }
        _ => false,
    }
}

// Whether two lists of expressions are the same trees.
#[cycle(same)]
fn same_all(a: &[CheckedExpr], b: &[CheckedExpr]) -> bool
    ensures { IsTrue result ↔ (a.now ≡ b.now) }
{
    if a.len() != b.len() {
        return false;
    }
    for (i, x) in a.iter().enumerate() {
        if !same(x, &b[i]) {
            return false;
        }
    }
    true
}
