//! The form of an expression: each operator by its name, with its operands in brackets behind it, and the text's own
//! brackets as square ones.

use domino_tree::Expr;
use mp5_words::Name;
use std::alloc::AllocError;

fn put_name(out: &mut String, name: &Name) -> Result<(), AllocError> {
    for b in name.bytes() {
        out.push(char::from(*b))?;
    }
    Ok(())
}

/// Tells the form of an expression.
#[cycle(shape)]
pub fn put_shape(out: &mut String, expr: &Expr) -> Result<(), AllocError> {
    match expr {
        Expr::Number(number) => write!(out, "{number}"),
        Expr::Word(name) => put_name(out, name),
        Expr::Field(packet, field) => {
            put_name(out, packet)?;
            out.push('.')?;
            put_name(out, field)
        }
        Expr::Cell(array, index) => {
            put_name(out, array)?;
            out.push_str(" at ")?;
            put_shape(out, index.get())
        }
        Expr::One(op, a) => {
            write!(out, "{op:?}(")?;
            put_shape(out, a.get())?;
            out.push(')')
        }
        Expr::Two(op, a, b) => {
            write!(out, "{op:?}(")?;
            put_shape(out, a.get())?;
            out.push(' ')?;
            put_shape(out, b.get())?;
            out.push(')')
        }
        Expr::Pick(cond, a, b) => {
            out.push_str("Pick(")?;
            put_shape(out, cond.get())?;
            out.push(' ')?;
            put_shape(out, a.get())?;
            out.push(' ')?;
            put_shape(out, b.get())?;
            out.push(')')
        }
        Expr::Call(function, args) => {
            put_name(out, function)?;
            out.push('(')?;
            put_shapes(out, args.as_slice())?;
            out.push(')')
        }
        Expr::Group(a) => {
            out.push('[')?;
            put_shape(out, a.get())?;
            out.push(']')
        }
    }
}

/// The forms of arguments.
#[cycle(shape)]
fn put_shapes(out: &mut String, args: &[Expr]) -> Result<(), AllocError> {
    for (i, arg) in args.iter().enumerate() {
        if i > 0 {
            out.push(' ')?;
        }
        put_shape(out, arg)?;
    }
    Ok(())
}
