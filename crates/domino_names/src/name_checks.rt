//! The checks of the names and the calls of a program.

ghost use Rattle.std.specs.Prelude.{◌≡◌, ◌++◌, map, OnOk, IfOk};
ghost use Rattle.domino_names.specs.Checks.{TwiceAt, UnknownAt, WrongKindAt, ArityAt};
ghost use Rattle.domino_names.specs.Checks.{kind_for, is_misused, is_miscalled, arity};
ghost use Rattle.domino_names.specs.First.{FirstFault, NoFault, IfRefused};
ghost use Rattle.domino_names.specs.Symbols.{declaration_of, kinds_at, hash_symbols};

use crate::copies::copy_name;
use crate::declarations::Declaration;
use crate::fault::CheckFault;
use crate::role::{Kind, Role};
use crate::symbol_table::Symbols;
use crate::uses::Use;
use domino_tree::hash_kind;
use mp5_words::Name;
use std::alloc::Global;

/// The table of all declared names, each declared once in its class.
pub(crate) fn symbols_of<'a>(
    alloc: Global,
    declarations: &[Declaration<'a>],
) -> Result<Symbols<'a>, CheckFault>
    ensures table { IfOk result (λ symbols. symbols ≡ hash_symbols ++ declarations.now) }
    ensures passes { OnOk result (NoFault TwiceAt (map declaration_of declarations.now)) }
    ensures refuses { IfRefused result (FirstFault TwiceAt (map declaration_of declarations.now)) }
{
    let mut symbols = Symbols::new(alloc)?;
    for declaration in declarations {
        let name = declaration.name();
        if !symbols.declare(name.bytes(), declaration.symbol())? {
            return Err(CheckFault::Twice(copy_name(alloc, name)?));
        }
    }
    Ok(symbols)
}

// The kind that the name of a use is declared as.
fn kind_for(symbols: &Symbols<'_>, used: &Use<'_>) -> Option<Kind>
    ensures { result ≡ kind_for (kinds_at symbols.now) used.now }
{
    match symbols.get(used.role().class(), used.name().bytes()) {
        Some(symbol) => Some(symbol.kind()),
        None => None,
    }
}

/// Whether each used name is declared in its class.
pub(crate) fn check_known(
    alloc: Global,
    uses: &[Use<'_>],
    symbols: &Symbols<'_>,
) -> Result<(), CheckFault>
    ensures passes { OnOk result (NoFault (UnknownAt (kinds_at symbols.now)) uses.now) }
    ensures refuses { IfRefused result (FirstFault (UnknownAt (kinds_at symbols.now)) uses.now) }
{
    for used in uses {
        if kind_for(symbols, used).is_none() {
            return Err(CheckFault::Unknown(copy_name(alloc, used.name())?));
        }
    }
    Ok(())
}

// Whether a name is declared as a kind that can't be used so.
fn is_misused(role: Role, kind: Option<Kind>) -> bool
    ensures { result ≡ is_misused role kind }
{
    match kind {
        Some(kind) => !role.takes(kind),
        None => false,
    }
}

/// Whether each used name is used as its kind.
pub(crate) fn check_kinds(
    alloc: Global,
    uses: &[Use<'_>],
    symbols: &Symbols<'_>,
) -> Result<(), CheckFault>
    ensures passes { OnOk result (NoFault (WrongKindAt (kinds_at symbols.now)) uses.now) }
    ensures refuses { IfRefused result (FirstFault (WrongKindAt (kinds_at symbols.now)) uses.now) }
{
    for used in uses {
        if is_misused(used.role(), kind_for(symbols, used)) {
            return Err(CheckFault::WrongKind(copy_name(alloc, used.name())?));
        }
    }
    Ok(())
}

// How many arguments the hash function of a name takes.
fn arity(name: &Name) -> usize
    ensures { result ≡ arity name.now }
{
    match hash_kind(name) {
        Some(kind) => kind.arity(),
        None => 2,
    }
}

// Whether a use is a call with another number of arguments.
fn is_miscalled(name: &Name, role: Role) -> bool
    ensures { result ≡ is_miscalled name.now role }
{
    match role {
        Role::Call(count) => count != arity(name),
        _ => false,
    }
}

/// Whether each hash function is called with as many arguments as it takes.
pub(crate) fn check_calls(alloc: Global, uses: &[Use<'_>]) -> Result<(), CheckFault>
    ensures passes { OnOk result (NoFault ArityAt uses.now) }
    ensures refuses { IfRefused result (FirstFault ArityAt uses.now) }
{
    for used in uses {
        if is_miscalled(used.name(), used.role()) {
            return Err(CheckFault::Arity(copy_name(alloc, used.name())?));
        }
    }
    Ok(())
}
