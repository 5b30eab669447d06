//! The program of a row.
ghost use Rattle.std.specs.Prelude.{◌<◌, ◌^◌, IfOk};
ghost use Rattle.domino_tree.specs.Count.{count_of};

use crate::row::Row;
use crate::trouble::Trouble;
use domino_check::{Checked, check};
use domino_syntax::read_program;
use std::alloc::{AllocError, Global};

/// The row's program: its items, a packet with the fields x, y and n, and its body as often as it is written.
pub fn checked_of(alloc: Global, row: &Row<'_>) -> Result<Checked, Trouble>
    ensures { IfOk result (λ checked. count_of checked < 2 ^ 32) }
{
    let text = text_of(alloc, row)?;
    let Ok(program) = read_program(alloc, text.as_bytes()) else {
        return Err(Trouble::Row);
    };
    match check(alloc, program) {
        Ok(checked) => Ok(checked),
        Err(_) => Err(Trouble::Row),
    }
}

/// The text of the row's program.
pub fn text_of(alloc: Global, row: &Row<'_>) -> Result<String, AllocError> {
    let mut text = String::from_str(alloc, row.items)?;
    text.push_str(" struct P { int x; int y; int n; }; void f(struct P p) { ")?;
    for _ in 0..row.times {
        text.push_str(row.body)?;
        text.push(' ')?;
    }
    text.push('}')?;
    Ok(text)
}
