//! The body of a program in numbers.
ghost use Rattle.std.specs.Prelude.{◌≡◌, ◌++◌, ◌∷◌, [], IfOk, OnOk, None, map, flat_map};
ghost use Rattle.domino_check.specs.Numbering.{Numbered, in_numbers, numbered, accesses_in};
ghost use Rattle.domino_check.specs.Numbering.{access_at, register_at, word_in, called, in_turn};
ghost use Rattle.domino_check.specs.Numbering.{numbered_set, numbered_stmt, numbered_arm};
ghost use Rattle.domino_check.specs.Numbering.{target_accesses, stmt_accesses, arm_accesses};
ghost use Rattle.domino_check.specs.Numbering.{block_accesses};

use crate::numbered::{CheckedArm, CheckedExpr, CheckedStmt};
use domino_names::Scope;
use domino_tree::{Arm, Expr, Stmt, Target, hash_kind};
use mp5_words::{HashKind, Name};
use sqlite_items::{Boxed, Items};
use std::alloc::{AllocError, Global};
use std::marker::Model;

/// An access of an array.
#[derive(Drop)]
pub(crate) struct Access {
    array: u32,
    index: Option<CheckedExpr>,
}

impl Model for Access {
    ghost use Rattle.domino_check.specs.Numbering.{Access as AccessOf};

    ghost Value = { AccessOf };

    ghost use Rattle.domino_check.specs.contracts.numbered.CheckedExpr as expression;
    ghost use Rattle.std.specs.Coded.{codes};

    ghost coded = { Prim.hlevel (codes, expression.the_row.coded) };

    ghost view = { λ a. record { array = a.array; index = a.index } };
}

impl Access {
    /// The array's number, and the index in numbers; none where an array stands in it.
    pub(crate) fn into_parts(self) -> (u32, Option<CheckedExpr>)
        ensures { result ≡ (self.array, self.index) }
    {
        let Access { array, index } = self;
        (array, index)
    }
}

// The hash function that a call names. The checks let no other name be called.
fn called(name: &Name) -> HashKind
    ensures { result ≡ called name.now }
{
    hash_kind(name).unwrap_or(HashKind::Two)
}

// An expression in numbers. Its accesses go to the end of the list.
#[cycle(number_expr)]
fn number_expr(
    alloc: Global,
    scope: &Scope<'_>,
    expr: &Expr,
    accesses: &mut Vec<Access>,
) -> Result<CheckedExpr, AllocError>
    ensures tree { IfOk result (λ tree. tree ≡ numbered scope.now expr.now) }
    ensures accesses { OnOk result
        (accesses.new.items ≡ accesses.old.items ++ accesses_in scope.now expr.now) }
{
    match expr {
        Expr::Number(number) => Ok(CheckedExpr::Number(*number)),
        Expr::Word(name) => number_word(scope, name, accesses),
        Expr::Field(_, field) => Ok(CheckedExpr::Field(scope.field_number(field))),
        Expr::Cell(array, index) => {
            let array = scope.array_number(array);
            number_access(alloc, scope, array, index.get(), accesses)?;
            Ok(CheckedExpr::Cell(array))
        }
        Expr::One(op, a) => {
            let a = number_expr(alloc, scope, a.get(), accesses)?;
            Ok(CheckedExpr::One(*op, Boxed::new(alloc, a)?))
        }
        Expr::Two(op, a, b) => {
            let a = number_expr(alloc, scope, a.get(), accesses)?;
            let b = number_expr(alloc, scope, b.get(), accesses)?;
            Ok(CheckedExpr::Two(*op, Boxed::new(alloc, a)?, Boxed::new(alloc, b)?))
        }
        Expr::Pick(cond, a, b) => {
            let cond = number_expr(alloc, scope, cond.get(), accesses)?;
            let a = number_expr(alloc, scope, a.get(), accesses)?;
            let b = number_expr(alloc, scope, b.get(), accesses)?;
            Ok(CheckedExpr::Pick(
                Boxed::new(alloc, cond)?,
                Boxed::new(alloc, a)?,
                Boxed::new(alloc, b)?,
            ))
        }
        Expr::Call(function, args) => {
            let args = number_args(alloc, scope, args.as_slice(), accesses)?;
            Ok(CheckedExpr::Hash(called(function), args))
        }
        Expr::Group(a) => number_expr(alloc, scope, a.get(), accesses),
    }
}

// The arguments of a call.
#[cycle(number_expr)]
fn number_args(
    alloc: Global,
    scope: &Scope<'_>,
    args: &[Expr],
    accesses: &mut Vec<Access>,
) -> Result<Items<CheckedExpr>, AllocError>
    ensures trees { IfOk result
        (λ trees. trees ≡ map (λ (a : Numbered). a.tree) (map (in_numbers scope.now) args.now)) }
    ensures accesses { OnOk result
        (accesses.new.items ≡ accesses.old.items
        ++ flat_map (λ (a : Numbered). a.accesses) (map (in_numbers scope.now) args.now)) }
{
    let mut trees = Items::new(alloc);
    for arg in args {
        trees.push(number_expr(alloc, scope, arg, accesses)?)?;
    }
    Ok(trees)
}

// The access of an array at an index, and then those in the index, go to the end of the list.
#[cycle(number_expr)]
fn number_access(
    alloc: Global,
    scope: &Scope<'_>,
    array: u32,
    index: &Expr,
    accesses: &mut Vec<Access>,
) -> Result<(), AllocError>
    ensures { OnOk result
        (accesses.new.items ≡ accesses.old.items
        ++ access_at array (in_numbers scope.now index.now)) }
{
    let mut inside = Vec::new(alloc);
    let tree = number_expr(alloc, scope, index, &mut inside)?;
    if inside.is_empty() {
        accesses.push(Access {
            array,
            index: Some(tree),
        })?;
    } else {
        accesses.push(Access { array, index: None })?;
    }
    accesses.append(&mut inside)
}

// A defined name is its number; another word is a register, whose access goes to the end of the list.
fn number_word(
    scope: &Scope<'_>,
    name: &Name,
    accesses: &mut Vec<Access>,
) -> Result<CheckedExpr, AllocError>
    ensures tree { IfOk result (λ tree. tree ≡ (word_in scope.now name.now).tree) }
    ensures accesses { OnOk result
        (accesses.new.items ≡ accesses.old.items ++ (word_in scope.now name.now).accesses) }
{
    match scope.number_of(name) {
        Some(number) => Ok(CheckedExpr::Number(number)),
        None => {
            let array = scope.array_number(name);
            push_register(accesses, array)?;
            Ok(CheckedExpr::Cell(array))
        }
    }
}

// The access of a register goes to the end of the list.
fn push_register(accesses: &mut Vec<Access>, array: u32) -> Result<(), AllocError>
    ensures { OnOk result (accesses.new.items ≡ accesses.old.items ++ (register_at array ∷ [])) }
{
    accesses.push(Access {
        array,
        index: Some(CheckedExpr::Number(0)),
    })?;
    Ok(())
}

/// Statements in numbers. Their accesses go to the end of the list.
#[cycle(number_stmt)]
pub(crate) fn number_block(
    alloc: Global,
    scope: &Scope<'_>,
    body: &[Stmt],
    accesses: &mut Vec<Access>,
) -> Result<Items<CheckedStmt>, AllocError>
    ensures trees { IfOk result (λ trees. trees ≡ map (numbered_stmt scope.now) body.now) }
    ensures accesses { OnOk result
        (accesses.new.items ≡ accesses.old.items ++ block_accesses scope.now body.now) }
{
    let mut trees = Items::new(alloc);
    for stmt in body {
        trees.push(number_stmt(alloc, scope, stmt, accesses)?)?;
    }
    Ok(trees)
}

#[cycle(number_stmt)]
fn number_stmt(
    alloc: Global,
    scope: &Scope<'_>,
    stmt: &Stmt,
    accesses: &mut Vec<Access>,
) -> Result<CheckedStmt, AllocError>
    ensures tree { IfOk result (λ tree. tree ≡ numbered_stmt scope.now stmt.now) }
    ensures accesses { OnOk result
        (accesses.new.items ≡ accesses.old.items ++ stmt_accesses scope.now stmt.now) }
{
    match stmt {
        Stmt::Set(target, expr) => number_set(alloc, scope, target, expr, accesses),
        Stmt::If(arms, None) => {
            let arms = number_arms(alloc, scope, arms.as_slice(), accesses)?;
            Ok(CheckedStmt::If(arms, None))
        }
        Stmt::If(arms, Some(body)) => {
            let arms = number_arms(alloc, scope, arms.as_slice(), accesses)?;
            let body = number_block(alloc, scope, body.as_slice(), accesses)?;
            Ok(CheckedStmt::If(arms, Some(body)))
        }
    }
}

// The arms of a chain.
#[cycle(number_stmt)]
fn number_arms(
    alloc: Global,
    scope: &Scope<'_>,
    arms: &[Arm],
    accesses: &mut Vec<Access>,
) -> Result<Items<CheckedArm>, AllocError>
    ensures trees { IfOk result (λ trees. trees ≡ map (numbered_arm scope.now) arms.now) }
    ensures accesses { OnOk result
        (accesses.new.items ≡ accesses.old.items
        ++ in_turn (map (arm_accesses scope.now) arms.now)) }
{
    let mut trees = Items::new(alloc);
    for arm in arms {
        trees.push(number_arm(alloc, scope, arm, accesses)?)?;
    }
    Ok(trees)
}

// A condition, and its block.
#[cycle(number_stmt)]
fn number_arm(
    alloc: Global,
    scope: &Scope<'_>,
    arm: &Arm,
    accesses: &mut Vec<Access>,
) -> Result<CheckedArm, AllocError>
    ensures tree { IfOk result (λ tree. tree ≡ numbered_arm scope.now arm.now) }
    ensures accesses { OnOk result
        (accesses.new.items ≡ accesses.old.items ++ arm_accesses scope.now arm.now) }
{
    let cond = number_expr(alloc, scope, &arm.cond, accesses)?;
    let body = number_block(alloc, scope, arm.body.as_slice(), accesses)?;
    Ok(CheckedArm { cond, body })
}

// An assignment. The accesses in the target stand before those in the right side.
fn number_set(
    alloc: Global,
    scope: &Scope<'_>,
    target: &Target,
    expr: &Expr,
    accesses: &mut Vec<Access>,
) -> Result<CheckedStmt, AllocError>
    ensures tree { IfOk result
        (λ tree. tree ≡ numbered_set scope.now target.now (numbered scope.now expr.now)) }
    ensures accesses { OnOk result
        (accesses.new.items ≡ accesses.old.items
        ++ (target_accesses scope.now target.now ++ accesses_in scope.now expr.now)) }
{
    match target {
        Target::Word(name) => {
            let array = scope.array_number(name);
            push_register(accesses, array)?;
            Ok(CheckedStmt::SetCell(array, number_expr(alloc, scope, expr, accesses)?))
        }
        Target::Field(_, field) => {
            let field = scope.field_number(field);
            Ok(CheckedStmt::SetField(field, number_expr(alloc, scope, expr, accesses)?))
        }
        Target::Cell(array, index) => {
            let array = scope.array_number(array);
            number_access(alloc, scope, array, index, accesses)?;
            Ok(CheckedStmt::SetCell(array, number_expr(alloc, scope, expr, accesses)?))
        }
    }
}
