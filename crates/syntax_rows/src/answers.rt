//! The answer to each question.

use crate::shape::put_shape;
use domino_syntax::read_program;
use domino_tree::{Program, Stmt, print};
use std::alloc::{AllocError, Global};
use table_rows::{Row, Trouble};

/// What is read for the row's question.
pub fn answer(alloc: Global, row: &Row<'_>) -> Result<String, Trouble> {
    match row.word {
        "shape" => told_shape(alloc, row.body),
        "text" => told_text(alloc, row.body),
        _ => Err(Trouble::Row),
    }
}

// The program of a text.
fn read(alloc: Global, text: &[u8]) -> Result<Program, Trouble> {
    match read_program(alloc, text) {
        Ok(program) => Ok(program),
        Err(_) => Err(Trouble::Row),
    }
}

// The form of an expression, which a program's one assignment has on its right side.
fn told_shape(alloc: Global, expression: &str) -> Result<String, Trouble> {
    let text = format!(in alloc; "struct P{{int a;}};void f(struct P p){{p.a={expression};}}")?;
    let program = read(alloc, text.as_bytes())?;
    let mut told = String::new(alloc);
    match program.function.body.get(0) {
        Some(Stmt::Set(_, value)) => put_shape(&mut told, value)?,
        _ => return Err(Trouble::Row),
    }
    Ok(told)
}

// The canonical text of a program, of which the canonical text is the same again.
fn told_text(alloc: Global, text: &str) -> Result<String, Trouble> {
    let text = unescaped(alloc, text)?;
    let canonical = print(alloc, &read(alloc, text.as_bytes())?)?;
    let again = print(alloc, &read(alloc, &canonical)?)?;
    if *again != *canonical {
        return Err(Trouble::Differs);
    }
    Ok(escaped(alloc, &canonical)?)
}

// A text with the ends of its lines.
fn unescaped(alloc: Global, text: &str) -> Result<String, AllocError> {
    let mut lines = String::new(alloc);
    for (i, line) in text.split("\\n").enumerate() {
        if i > 0 {
            lines.push('\n')?;
        }
        lines.push_str(line)?;
    }
    Ok(lines)
}

// A text as one line.
fn escaped(alloc: Global, text: &[u8]) -> Result<String, AllocError> {
    let mut line = String::new(alloc);
    for byte in text {
        match *byte {
            b'\n' => line.push_str("\\n")?,
            byte => line.push(char::from(byte))?,
        }
    }
    Ok(line)
}
