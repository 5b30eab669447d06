//! The lines of statements, under the guards of their blocks.

ghost use Rattle.std.specs.Prelude.{◌≡◌, ◌+◌, ◌≤◌, ◌++◌, ◌∷◌, [], IfOk, OnOk, map, sum, suc, List, Option};
ghost use Rattle.branch_removal.specs.GuardedLines.{body_lines, block, arms_then, Emits, last_lines, stmt_lines, arm_lines, block_guards, guards_in, arm_guards};

use crate::expression::guarded;
use code_forms::GuardLine;
use domino_check::{CheckedArm, CheckedStmt};
use std::alloc::{AllocError, Global};

/// The lines so far, and the number of the next guard.
#[derive(Drop)]
pub(crate) struct Output {
    pub lines: Vec<GuardLine>,
    pub next: u32,
}

/// Adds the lines of statements under a guard.
#[cycle(stmt)]
pub(crate) fn push_block(
    alloc: Global,
    body: &[CheckedStmt],
    under: u32,
    out: &mut Output,
) -> Result<(), AllocError>
    requires { out.old.next + block_guards body.now ≤ 4294967295 }
    ensures lines { OnOk result (out.new.lines.items ≡ out.old.lines.items
        ++ (block body.now under out.old.next).lines) }
    ensures next { OnOk result (out.new.next ≡ (block body.now under out.old.next).next) }
    ensures guards { OnOk result (out.new.next ≡ out.old.next + block_guards body.now) }
{
    for stmt in body {
        push_stmt(alloc, stmt, under, out)?;
    }
    Ok(())
}

// Adds the lines of a statement.
#[cycle(stmt)]
fn push_stmt(
    alloc: Global,
    stmt: &CheckedStmt,
    under: u32,
    out: &mut Output,
) -> Result<(), AllocError>
    requires { out.old.next + guards_in stmt.now ≤ 4294967295 }
    ensures lines { OnOk result (out.new.lines.items ≡ out.old.lines.items
        ++ (stmt_lines stmt.now under out.old.next).lines) }
    ensures next { OnOk result (out.new.next ≡ (stmt_lines stmt.now under out.old.next).next) }
    ensures guards { OnOk result (out.new.next ≡ out.old.next + guards_in stmt.now) }
{
    match stmt {
        CheckedStmt::SetField(field, value) => {
            let value = guarded(alloc, value)?;
            out.lines.push(GuardLine::SetField {
                field: *field,
                guard: under,
                value,
            })?;
            Ok(())
        }
        CheckedStmt::SetCell(array, value) => {
            let value = guarded(alloc, value)?;
            out.lines.push(GuardLine::SetCell {
                array: *array,
                guard: under,
                value,
            })?;
            Ok(())
        }
        CheckedStmt::If(arms, last) => {
            let otherwise = push_arms(alloc, arms.as_slice(), under, out)?;
            match last {
                Some(body) => push_block(alloc, body.as_slice(), otherwise, out),
                None => Ok(()),
            }
        }
    }
}

// Adds the lines of a chain's arms. Gives the guard under which no condition holds.
#[cycle(stmt)]
fn push_arms(
    alloc: Global,
    arms: &[CheckedArm],
    under: u32,
    out: &mut Output,
) -> Result<u32, AllocError>
    requires { out.old.next + sum (map arm_guards arms.now) ≤ 4294967295 }
    // Whatever the last block is, its lines come under that guard.
    ensures lines { IfOk result (λ otherwise. (last : Option (List Emits))
        → out.old.lines.items ++ (arms_then arms.now last under out.old.next).lines
        ≡ out.new.lines.items ++ (last_lines last otherwise out.new.next).lines) }
    ensures next { IfOk result (λ otherwise. (last : Option (List Emits))
        → (arms_then arms.now last under out.old.next).next
        ≡ (last_lines last otherwise out.new.next).next) }
    ensures guards { OnOk result (out.new.next ≡ out.old.next + sum (map arm_guards arms.now)) }
{
    let mut under = under;
    for arm in arms {
        let next = out.next;
        push_arm(alloc, arm, under, out)?;
        under = next + 1;
    }
    Ok(under)
}

// Adds the test of an arm, which makes the next two guards, and the lines of its block under the first.
#[cycle(stmt)]
fn push_arm(alloc: Global, arm: &CheckedArm, under: u32, out: &mut Output) -> Result<(), AllocError>
    requires { out.old.next + arm_guards arm.now ≤ 4294967295 }
    ensures lines { OnOk result (out.new.lines.items ≡ out.old.lines.items
        ++ (arm_lines arm.now under out.old.next).lines) }
    ensures next { OnOk result (out.new.next ≡ (arm_lines arm.now under out.old.next).next) }
    ensures guards { OnOk result (out.new.next ≡ out.old.next + arm_guards arm.now) }
    ensures room { OnOk result (out.old.next + 2 ≤ out.new.next) }
{
    let yes = out.next;
    let no = yes + 1;
    let cond = guarded(alloc, &arm.cond)?;
    out.lines.push(GuardLine::Test {
        cond,
        under,
        yes,
        no,
    })?;
    out.next = no + 1;
    push_block(alloc, arm.body.as_slice(), yes, out)
}

/// The lines of a body, under guard 0.
pub(crate) fn body_lines(alloc: Global, body: &[CheckedStmt]) -> Result<Vec<GuardLine>, AllocError>
    requires { 1 + block_guards body.now ≤ 4294967295 }
    ensures lines { IfOk result (λ lines. lines.items ≡ body_lines body.now) }
{
    let mut out = Output {
        lines: Vec::new(alloc),
        next: 1,
    };
    push_block(alloc, body, 0, &mut out)?;
    Ok(out.lines)
}
