//! The uses of names in a program, in text order.

ghost use Rattle.std.specs.Prelude.{◌≡◌, ◌++◌, flat_map, map, IfOk, OnOk};
ghost use Rattle.domino_names.specs.declared.role.Role.TheVariants as role;
ghost use Rattle.domino_names.specs.Uses.{Use as UseOf, one_use, field_uses, joined, expr_uses, target_uses, stmt_uses, arm_uses, size_uses, length_uses, start_uses, item_uses, function_uses, uses_of};

use crate::role::Role;
use domino_tree::{Arm, Expr, Function, Item, Program, Size, Start, Stmt, Target};
use mp5_words::Name;
use std::alloc::{AllocError, Global};
use std::marker::Model;

/// A name of a program, and what it is used as.
#[derive(Drop)]
pub(crate) struct Use<'a> {
    name: &'a Name,
    role: Role,
}

impl<'a> Model for Use<'a> {
    ghost use Rattle.domino_names.specs.Uses.{Use as UseOf};

    ghost Value = { UseOf };

    ghost view = { λ u. record { name = u.name.now; role = u.role } };
}

impl<'a> Use<'a> {
    /// The name.
    pub(crate) fn name(&self) -> &'a Name
        ensures { result.now ≡ self.now.name }
    {
        self.name
    }

    /// What it is used as.
    pub(crate) fn role(&self) -> Role
        ensures { result ≡ self.now.role }
    {
        self.role
    }
}

// A use at the end of the list.
fn push_use<'a>(out: &mut Vec<Use<'a>>, name: &'a Name, role: Role) -> Result<(), AllocError>
    ensures { OnOk result (out.new.items ≡ out.old.items ++ one_use name.now role) }
{
    out.push(Use { name, role })?;
    Ok(())
}

// The two names of a field access.
fn push_field<'a>(
    out: &mut Vec<Use<'a>>,
    packet: &'a Name,
    field: &'a Name,
) -> Result<(), AllocError>
    ensures { OnOk result (out.new.items ≡ out.old.items ++ field_uses packet.now field.now) }
{
    push_use(out, packet, Role::Packet)?;
    push_use(out, field, Role::Field)
}

#[cycle(expression)]
fn push_expr<'a>(out: &mut Vec<Use<'a>>, expr: &'a Expr) -> Result<(), AllocError>
    ensures { OnOk result (out.new.items ≡ out.old.items ++ expr_uses expr.now) }
{
    match expr {
        Expr::Number(_) => Ok(()),
        Expr::Word(name) => push_use(out, name, Role::Value),
        Expr::Field(packet, field) => push_field(out, packet, field),
        Expr::Cell(array, index) => {
            push_use(out, array, Role::Array)?;
            push_expr(out, index.get())
        }
        Expr::One(_, a) | Expr::Group(a) => push_expr(out, a.get()),
        Expr::Two(_, a, b) => {
            push_expr(out, a.get())?;
            push_expr(out, b.get())
        }
        Expr::Pick(cond, a, b) => {
            push_expr(out, cond.get())?;
            push_expr(out, a.get())?;
            push_expr(out, b.get())
        }
        Expr::Call(function, args) => {
            push_use(out, function, Role::Call(args.len()))?;
            push_args(out, args.as_slice())
        }
    }
}

// The uses in the arguments.
#[cycle(expression)]
fn push_args<'a>(out: &mut Vec<Use<'a>>, args: &'a [Expr]) -> Result<(), AllocError>
    ensures { OnOk result (out.new.items ≡ out.old.items ++ joined (map expr_uses args.now)) }
{
    for arg in args {
        push_expr(out, arg)?;
    }
    Ok(())
}

fn push_target<'a>(out: &mut Vec<Use<'a>>, target: &'a Target) -> Result<(), AllocError>
    ensures { OnOk result (out.new.items ≡ out.old.items ++ target_uses target.now) }
{
    match target {
        Target::Word(name) => push_use(out, name, Role::Target),
        Target::Field(packet, field) => push_field(out, packet, field),
        Target::Cell(array, index) => {
            push_use(out, array, Role::Array)?;
            push_expr(out, index)
        }
    }
}

#[cycle(statement)]
fn push_stmt<'a>(out: &mut Vec<Use<'a>>, stmt: &'a Stmt) -> Result<(), AllocError>
    ensures { OnOk result (out.new.items ≡ out.old.items ++ stmt_uses stmt.now) }
{
    match stmt {
        Stmt::Set(target, expr) => {
            push_target(out, target)?;
            push_expr(out, expr)
        }
        Stmt::If(arms, None) => push_arms(out, arms.as_slice()),
        Stmt::If(arms, Some(body)) => {
            push_arms(out, arms.as_slice())?;
            push_block(out, body.as_slice())
        }
    }
}

// The uses in the arms of a chain.
#[cycle(statement)]
fn push_arms<'a>(out: &mut Vec<Use<'a>>, arms: &'a [Arm]) -> Result<(), AllocError>
    ensures { OnOk result (out.new.items ≡ out.old.items ++ joined (map arm_uses arms.now)) }
{
    for arm in arms {
        push_arm(out, arm)?;
    }
    Ok(())
}

// The uses in the condition, and in the block.
#[cycle(statement)]
fn push_arm<'a>(out: &mut Vec<Use<'a>>, arm: &'a Arm) -> Result<(), AllocError>
    ensures { OnOk result (out.new.items ≡ out.old.items ++ arm_uses arm.now) }
{
    push_expr(out, &arm.cond)?;
    push_block(out, arm.body.as_slice())
}

// The uses in the statements of a block.
#[cycle(statement)]
fn push_block<'a>(out: &mut Vec<Use<'a>>, body: &'a [Stmt]) -> Result<(), AllocError>
    ensures { OnOk result (out.new.items ≡ out.old.items ++ joined (map stmt_uses body.now)) }
{
    for stmt in body {
        push_stmt(out, stmt)?;
    }
    Ok(())
}

fn push_size<'a>(out: &mut Vec<Use<'a>>, size: &'a Size) -> Result<(), AllocError>
    ensures { OnOk result (out.new.items ≡ out.old.items ++ size_uses size.now) }
{
    match size {
        Size::Number(_) => Ok(()),
        Size::Word(name) => push_use(out, name, Role::Size),
    }
}

fn push_start<'a>(out: &mut Vec<Use<'a>>, start: &'a Start) -> Result<(), AllocError>
    ensures { OnOk result (out.new.items ≡ out.old.items ++ start_uses start.now) }
{
    match start {
        Start::Absent => Ok(()),
        Start::Plain(size) | Start::Braced(size) => push_size(out, size),
    }
}

// The uses in a declaration's length and start value.
fn push_item<'a>(out: &mut Vec<Use<'a>>, item: &'a Item) -> Result<(), AllocError>
    ensures { OnOk result (out.new.items ≡ out.old.items ++ item_uses item.now) }
{
    match item {
        Item::Define { .. } => Ok(()),
        Item::Array {
            length: Some(size),
            start,
            ..
        } => {
            push_size(out, size)?;
            push_start(out, start)
        }
        Item::Array { start, .. } => push_start(out, start),
    }
}

fn push_items<'a>(out: &mut Vec<Use<'a>>, items: &'a [Item]) -> Result<(), AllocError>
    ensures { OnOk result (out.new.items ≡ out.old.items ++ flat_map item_uses items.now) }
{
    for item in items {
        push_item(out, item)?;
    }
    Ok(())
}

// The type of the function's packet, and the uses in the body.
fn push_function<'a>(out: &mut Vec<Use<'a>>, function: &'a Function) -> Result<(), AllocError>
    ensures { OnOk result (out.new.items ≡ out.old.items ++ function_uses function.now) }
{
    push_use(out, &function.of, Role::Struct)?;
    push_block(out, function.body.as_slice())
}

/// The uses of names in a program, in text order.
pub(crate) fn uses_of(alloc: Global, program: &Program) -> Result<Vec<Use<'_>>, AllocError>
    ensures { IfOk result (λ uses. uses.items ≡ uses_of program.now) }
{
    let mut out = Vec::new(alloc);
    push_items(&mut out, program.before.as_slice())?;
    push_items(&mut out, program.after.as_slice())?;
    push_function(&mut out, &program.function)?;
    Ok(out)
}
