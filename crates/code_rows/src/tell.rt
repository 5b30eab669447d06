//! Code as text. Parts of a list stand one behind another, with `; ` between them.
//!
//! Guarded code is the index of each array, where it has one, and then each line behind its guard: a test, its
//! condition and its two guards, or what is set and its value. In expressions `f0` is a field, `a0` the copy of an
//! array, `(Add f0 1)` an operator or a hash before its operands, `(? f0 1 2)` a choice.
//!
//! Flat code is each instruction before its operands: `s3` a slot, `a0` an array, a hash by its kind. Of each array
//! stand the array with the same index, the guards under which it is touched, and behind `/` the numbers of the
//! instructions that make its later copies; at the end stands the last value of each field.

use code_forms::{FlatArray, FlatCode, GuardCode, GuardExpr, GuardLine, Instr, Operand};
use std::alloc::{AllocError, Global};

/// Guarded code.
pub fn tell_lines(alloc: Global, code: &GuardCode) -> Result<String, AllocError> {
    let mut told = String::new(alloc);
    for shape in code.arrays.as_slice() {
        begin(&mut told, "index")?;
        if let Some(index) = &shape.index {
            tell_next(alloc, &mut told, index)?;
        }
    }
    for line in code.lines.as_slice() {
        tell_line(alloc, &mut told, line)?;
    }
    Ok(told)
}

/// The instructions of flat code.
pub fn tell_instrs(alloc: Global, code: &FlatCode) -> Result<String, AllocError> {
    let mut told = String::new(alloc);
    for instr in code.instrs.as_slice() {
        tell_instr(alloc, &mut told, *instr)?;
    }
    Ok(told)
}

/// The arrays of flat code, and the last values of its fields.
pub fn tell_ends(alloc: Global, code: &FlatCode) -> Result<String, AllocError> {
    let mut told = String::new(alloc);
    for array in code.arrays.as_slice() {
        tell_array(alloc, &mut told, array)?;
    }
    begin(&mut told, "last")?;
    tell_operands(alloc, &mut told, code.last.as_slice())?;
    Ok(told)
}

/// What comes next of a list begins so.
fn begin(told: &mut String, front: &str) -> Result<(), AllocError> {
    if !told.is_empty() {
        told.push_str("; ")?;
    }
    told.push_str(front)
}

fn tell_text(told: &mut String, text: &String) -> Result<(), AllocError> {
    told.push_str(text.as_str())
}

#[cycle(tell)]
fn tell(alloc: Global, told: &mut String, expr: &GuardExpr) -> Result<(), AllocError> {
    match expr {
        GuardExpr::Number(n) => tell_text(told, &format!(in alloc; "{n}")?),
        GuardExpr::Field(f) => tell_text(told, &format!(in alloc; "f{f}")?),
        GuardExpr::Cell(a) => tell_text(told, &format!(in alloc; "a{a}")?),
        GuardExpr::One(op, a) => {
            tell_text(told, &format!(in alloc; "({op:?}")?)?;
            tell_next(alloc, told, a.get())?;
            told.push(')')
        }
        GuardExpr::Two(op, a, b) => {
            tell_text(told, &format!(in alloc; "({op:?}")?)?;
            tell_next(alloc, told, a.get())?;
            tell_next(alloc, told, b.get())?;
            told.push(')')
        }
        GuardExpr::Pick(c, a, b) => {
            told.push_str("(?")?;
            tell_next(alloc, told, c.get())?;
            tell_next(alloc, told, a.get())?;
            tell_next(alloc, told, b.get())?;
            told.push(')')
        }
        GuardExpr::Hash(kind, args) => {
            tell_text(told, &format!(in alloc; "({kind:?}")?)?;
            for arg in args.as_slice() {
                tell_next(alloc, told, arg)?;
            }
            told.push(')')
        }
    }
}

/// A space and the expression.
#[cycle(tell)]
fn tell_next(alloc: Global, told: &mut String, expr: &GuardExpr) -> Result<(), AllocError> {
    told.push(' ')?;
    tell(alloc, told, expr)
}

fn tell_line(alloc: Global, told: &mut String, line: &GuardLine) -> Result<(), AllocError> {
    begin(told, "")?;
    match line {
        GuardLine::Test {
            cond,
            under,
            yes,
            no,
        } => {
            tell_text(told, &format!(in alloc; "{under}: test")?)?;
            tell_next(alloc, told, cond)?;
            tell_text(told, &format!(in alloc; ", {yes} {no}")?)
        }
        GuardLine::SetField {
            field,
            guard,
            value,
        } => {
            tell_text(told, &format!(in alloc; "{guard}: f{field} =")?)?;
            tell_next(alloc, told, value)
        }
        GuardLine::SetCell {
            array,
            guard,
            value,
        } => {
            tell_text(told, &format!(in alloc; "{guard}: a{array} =")?)?;
            tell_next(alloc, told, value)
        }
    }
}

fn tell_instr(alloc: Global, told: &mut String, instr: Instr) -> Result<(), AllocError> {
    begin(told, "")?;
    match instr {
        Instr::One(op, a) => tell_form(alloc, told, &format!(in alloc; "{op:?}")?, &[a]),
        Instr::Two(op, a, b) => tell_form(alloc, told, &format!(in alloc; "{op:?}")?, &[a, b]),
        Instr::Pick(c, a, b) => tell_form(alloc, told, &format!(in alloc; "Pick")?, &[c, a, b]),
        Instr::Hash(kind, a, b, c) => {
            tell_form(alloc, told, &format!(in alloc; "{kind:?}")?, &[a, b, c])
        }
        Instr::Move(a) => tell_form(alloc, told, &format!(in alloc; "Move")?, &[a]),
        Instr::Yes(g, c) => tell_form(alloc, told, &format!(in alloc; "Yes")?, &[g, c]),
        Instr::No(g, c) => tell_form(alloc, told, &format!(in alloc; "No")?, &[g, c]),
        Instr::Index(n, a) => tell_form(alloc, told, &format!(in alloc; "Index a{n}")?, &[a]),
        Instr::Load(n) => tell_form(alloc, told, &format!(in alloc; "Load a{n}")?, &[]),
        Instr::Store(n, a) => tell_form(alloc, told, &format!(in alloc; "Store a{n}")?, &[a]),
    }
}

fn tell_form(
    alloc: Global,
    told: &mut String,
    form: &String,
    operands: &[Operand],
) -> Result<(), AllocError> {
    tell_text(told, form)?;
    tell_operands(alloc, told, operands)
}

/// A space before each operand.
fn tell_operands(alloc: Global, told: &mut String, operands: &[Operand]) -> Result<(), AllocError> {
    for operand in operands {
        match operand {
            Operand::Slot(slot) => tell_text(told, &format!(in alloc; " s{slot}")?)?,
            Operand::Number(n) => tell_text(told, &format!(in alloc; " {n}")?)?,
        }
    }
    Ok(())
}

fn tell_array(alloc: Global, told: &mut String, array: &FlatArray) -> Result<(), AllocError> {
    begin(told, "")?;
    tell_text(told, &format!(in alloc; "{}:", array.same)?)?;
    tell_operands(alloc, told, array.touched.as_slice())?;
    told.push_str(" /")?;
    for number in array.copies.as_slice() {
        tell_text(told, &format!(in alloc; " {number}")?)?;
    }
    Ok(())
}
