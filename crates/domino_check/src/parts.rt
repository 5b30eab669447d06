//! What a checked program keeps beside itself.

ghost use Rattle.std.specs.Prelude.{◌≡◌, ◌≤◌, ◌++◌, length, IfOk, OnOk};
ghost use Rattle.domino_check.specs.Accepted.{ArePartsOf};
ghost use Rattle.domino_names.specs.Checks.{NoTwice};
ghost use Rattle.domino_names.specs.Infos.{infos_of};
ghost use Rattle.domino_check.specs.Numbering.{numbered_body, accesses};
ghost use Rattle.domino_names.specs.First.{IfRefused};
ghost use Rattle.domino_names.specs.NamesRefused.{PassesNames, PassesSizes};
ghost use Rattle.domino_check.specs.Refused.{PassesIndexes};
ghost use Rattle.domino_check.specs.Refused.{RefusedIndexes};
ghost use Rattle.domino_names.specs.Symbols.{symbols_of};

use crate::indexes::index_table;
use crate::numbered::{CheckedExpr, CheckedStmt};
use crate::sites::{check_sites, push_block};
use crate::translation::{Access, number_block};
use domino_names::{ArrayInfo, CheckFault, Scope, Symbols, copy_names, infos_of};
use domino_tree::Program;
use mp5_words::{FieldNames, Name};
use sqlite_items::Items;
use std::alloc::{AllocError, Global};

/// The fields, the arrays, the body in numbers, and the index of each array.
#[derive(Drop)]
pub(crate) struct Parts {
    pub fields: FieldNames,
    pub arrays: Items<ArrayInfo>,
    pub body: Items<CheckedStmt>,
    pub indexes: Items<Option<CheckedExpr>>,
}

// The body in numbers. The accesses of arrays in it go to the end of the list.
fn number_body(
    alloc: Global,
    program: &Program,
    symbols: &Symbols<'_>,
    arrays: &[ArrayInfo],
    out: &mut Vec<Access>,
) -> Result<Items<CheckedStmt>, AllocError>
    requires symbols { symbols.now ≡ symbols_of program.now }
    requires once { NoTwice program.now }
    requires arrays { arrays.now ≡ infos_of program.now }
    requires few_fields { length program.now.packet.fields ≤ 32 }
    requires few_arrays { length arrays.now ≤ 16 }
    ensures body { IfOk result (λ body. body ≡ numbered_body program.now) }
    ensures accesses { OnOk result (out.new.items ≡ out.old.items ++ accesses program.now) }
{
    let scope = Scope::new(symbols, program.packet.fields.as_slice(), arrays);
    number_block(alloc, &scope, program.function.body.as_slice(), out)
}

/// What a program keeps beside itself, where each array has one index and no index moves.
pub(crate) fn parts_of(
    alloc: Global,
    program: &Program,
    symbols: &Symbols<'_>,
) -> Result<Parts, CheckFault>
    requires symbols { symbols.now ≡ symbols_of program.now }
    requires names { PassesNames program.now }
    requires sizes { PassesSizes program.now }
    ensures parts { IfOk result (ArePartsOf program.now) }
    ensures passes { OnOk result (PassesIndexes program.now) }
    ensures refuses { IfRefused result (RefusedIndexes program.now) }
{
    let arrays = infos_of(alloc, program, symbols)?;
    let mut accesses = Vec::new(alloc);
    let body = number_body(alloc, program, symbols, arrays.as_slice(), &mut accesses)?;
    let indexes = index_table(alloc, arrays.as_slice(), accesses)?;
    let mut sites = Vec::new(alloc);
    push_block(alloc, &mut sites, body.as_slice())?;
    check_sites(alloc, arrays.as_slice(), indexes.as_slice(), &sites)?;
    let fields = copy_names(alloc, program.packet.fields.as_slice())?;
    Ok(Parts {
        fields: FieldNames::new(fields),
        arrays,
        body,
        indexes,
    })
}
