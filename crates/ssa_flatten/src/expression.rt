ghost use Rattle.std.specs.Prelude.{◌≡◌, ◌+◌, ◌≤◌, ◌++◌, ◌∷◌, [], None, IfOk, OnOk, map, sum};
ghost use Rattle.code_forms.specs.GuardValid.{operators_in};
ghost use Rattle.ssa_flatten.specs.Flattening.{operand_at, copy_operand};
ghost use Rattle.ssa_flatten.specs.Views.{code_at, codes_at, HasBehind};
ghost use Rattle.std.specs.List.{slice_index_or};

use crate::output::{Output, emit};
use code_forms::{GuardExpr, Instr, Operand};
use std::alloc::{AllocError, Global};

// The operand at a place; 0 past them all.
pub(crate) fn operand_at(operands: &[Operand], place: usize) -> Operand
    ensures { result ≡ operand_at operands.now place }
{
    operands.get(place).copied().unwrap_or(Operand::Number(0))
}

// The latest copy of an array; 0 where it isn't loaded.
pub(crate) fn copy_at(copies: &[Option<Operand>], array: usize) -> Operand
    ensures { result ≡ copy_operand (slice_index_or copies.now array None) }
{
    if array < copies.len() {
        copies[array].unwrap_or(Operand::Number(0))
    } else {
        Operand::Number(0)
    }
}

/// The instructions of an expression. Gives its operand.
#[cycle(expr)]
pub(crate) fn flat_expr(
    alloc: Global,
    fields: &[Operand],
    copies: &[Option<Operand>],
    expr: &GuardExpr,
    out: &mut Output,
) -> Result<Operand, AllocError>
    requires { out.old.next + operators_in expr.now ≤ 2000 }
    ensures result { IfOk result (λ x. x ≡ (code_at fields.now copies.now expr.now
        out.old.next).result) }
    ensures instrs { OnOk result (HasBehind out.old out.new
        (code_at fields.now copies.now expr.now out.old.next).instrs) }
    ensures next { OnOk result (out.new.next ≡ (code_at fields.now copies.now expr.now
        out.old.next).next) }
    ensures count { OnOk result (out.new.next ≡ out.old.next + operators_in expr.now) }
{
    match expr {
        GuardExpr::Number(n) => Ok(Operand::Number(*n)),
        GuardExpr::Field(field) => Ok(operand_at(fields, *field as usize)),
        GuardExpr::Cell(array) => Ok(copy_at(copies, *array as usize)),
        GuardExpr::One(op, a) => {
            let a = flat_expr(alloc, fields, copies, a.get(), out)?;
            emit(out, Instr::One(*op, a))
        }
        GuardExpr::Two(op, a, b) => {
            let a = flat_expr(alloc, fields, copies, a.get(), out)?;
            let b = flat_expr(alloc, fields, copies, b.get(), out)?;
            emit(out, Instr::Two(*op, a, b))
        }
        GuardExpr::Pick(c, a, b) => {
            let c = flat_expr(alloc, fields, copies, c.get(), out)?;
            let a = flat_expr(alloc, fields, copies, a.get(), out)?;
            let b = flat_expr(alloc, fields, copies, b.get(), out)?;
            emit(out, Instr::Pick(c, a, b))
        }
        GuardExpr::Hash(kind, args) => {
            let args = flat_args(alloc, fields, copies, args.as_slice(), out)?;
            let a = operand_at(&args, 0);
            let b = operand_at(&args, 1);
            let c = operand_at(&args, 2);
            emit(out, Instr::Hash(*kind, a, b, c))
        }
    }
}

// The instructions of arguments. Gives their operands.
#[cycle(expr)]
fn flat_args(
    alloc: Global,
    fields: &[Operand],
    copies: &[Option<Operand>],
    args: &[GuardExpr],
    out: &mut Output,
) -> Result<Vec<Operand>, AllocError>
    requires { out.old.next + sum (map operators_in args.now) ≤ 2000 }
    ensures results { IfOk result (λ xs. xs.items ≡
        (codes_at fields.now copies.now args.now out.old.next).results) }
    ensures instrs { OnOk result (HasBehind out.old out.new
        (codes_at fields.now copies.now args.now out.old.next).instrs) }
    ensures next { OnOk result (out.new.next ≡ (codes_at fields.now copies.now args.now
        out.old.next).next) }
    ensures count { OnOk result (out.new.next ≡ out.old.next + sum (map operators_in args.now)) }
{
    let mut operands = Vec::new(alloc);
    for arg in args {
        operands.push(flat_expr(alloc, fields, copies, arg, out)?)?;
    }
    Ok(operands)
}
