//! The lines of the canonical text.
ghost use Rattle.std.specs.Prelude.{◌≡◌, ◌<◌, ◌≤◌, ◌∷◌, length, take, drop, IfOk};
ghost use Rattle.domino_tree.specs.Text.{text_of};
ghost use Rattle.report_text.specs.PlanLines.{lines_of};

use domino_tree::{Program, print};
use mp5_words::NoMemory;
use sqlite_items::Items;
use std::alloc::{AllocError, Global};

// How long the first line of a text is, with its newline.
fn first_length(text: &[u8]) -> usize
    requires { 0 < length text.now }
    ensures some { 0 < result }
    ensures inside { result ≤ length text.now }
    ensures first { lines_of text.now ≡ take result text.now ∷ lines_of (drop result text.now) }
{
    for (i, byte) in text.iter().enumerate() {
        if *byte == b'\n' {
            return i + 1;
        }
    }
    text.len()
}

// The lines of a text, one after another.
fn split_lines(alloc: Global, text: &[u8]) -> Result<Vec<Items<u8>>, AllocError>
    ensures { IfOk result (λ lines. lines.items ≡ lines_of text.now) }
{
    let mut lines = Vec::new(alloc);
    let mut rest = text;
    while !rest.is_empty() {
        let (line, later) = rest.split_at(first_length(rest));
        lines.push(Items::from_slice(alloc, line)?)?;
        rest = later;
    }
    Ok(lines)
}

/// The lines of the canonical text of a program.
pub(crate) fn canonical_lines(alloc: Global, program: &Program) -> Result<Vec<Items<u8>>, NoMemory>
    ensures { IfOk result (λ lines. lines.items ≡ lines_of (text_of program.now)) }
{
    let text = print(alloc, program)?;
    Ok(split_lines(alloc, &text)?)
}
