ghost use Rattle.std.specs.Prelude.{◌≡◌, ◌<◌, ◌↔◌, ℕ, length, None, true, false};
ghost use Rattle.std.specs.Option.{option_copied};
ghost use Rattle.domino_names.specs.Infos.{infos_of};
ghost use Rattle.domino_check.specs.Numbering.{numbered_body, accesses};
ghost use Rattle.domino_check.specs.Indexes.{index_of};
ghost use Rattle.domino_check.specs.Count.{numbered_count};
ghost use Rattle.domino_check.specs.Sites.{program_sites, program_indexes, is_touched};
ghost use Rattle.domino_check.specs.Touched.{TouchesBySites};
ghost use Rattle.domino_check.specs.Reached.{TouchesReached};
ghost use Rattle.domino_check.specs.Accepted.{Keeps};
ghost use Rattle.domino_check.specs.NumberedMeaning.{indexing, numbered_exec, executed_from};
ghost use Rattle.domino_check.specs.Refused.{Passes};
ghost use Rattle.domino_check.specs.WellFormed.{body_fits, index_fits};
ghost use Rattle.domino_tree.specs.Count.{count_of};
ghost use Rattle.domino_tree.specs.Execution.{State};

use crate::numbered::{CheckedExpr, CheckedStmt};
use crate::parts::Parts;
use domino_names::ArrayInfo;
use domino_tree::Program;
use mp5_words::FieldNames;
use sqlite_items::Items;
use std::marker::Model;

/// A program that passed the checks, seen as the program. What it offers beside the program is the program's.
#[derive(Drop)]
pub struct Checked {
    program: Program,
    fields: FieldNames,
    arrays: Items<ArrayInfo>,
    body: Items<CheckedStmt>,
    indexes: Items<Option<CheckedExpr>>,
}

impl Model for Checked {
    ghost use Rattle.domino_tree.specs.declared.program.Program.{Program};

    ghost Value = { Program };

    ghost use Rattle.domino_tree.specs.contracts.program.Program.{the_row as program_row};

    ghost coded = { program_row.coded };

    ghost use Rattle.domino_check.specs.Accepted.{IsChecked};

    ghost view = { λ c. c.program };

    ghost invariant = { λ c. IsChecked c.program c.fields c.arrays c.body c.indexes };
}

impl Checked {
    ghost use Rattle.domino_check.specs.Accepted.{IsChecked};

    /// The program with its parts.
    pub(crate) fn new(program: Program, parts: Parts) -> Checked
        requires { IsChecked program parts.fields parts.arrays parts.body parts.indexes }
        ensures { result ≡ program }
    {
        let Parts {
            fields,
            arrays,
            body,
            indexes,
        } = parts;
        Checked {
            program,
            fields,
            arrays,
            body,
            indexes,
        }
    }

    /// The program as it was read.
    pub fn program(&self) -> &Program
        ensures program { result.now ≡ self.now }
        ensures passes { Passes self.now }
        ensures keeps { Keeps self.now }
    {
        &self.program
    }

    /// The names of the packet's fields, in order of declaration.
    pub fn field_names(&self) -> &FieldNames
        ensures { result.now ≡ self.now.packet.fields }
    {
        &self.fields
    }

    /// The arrays, in order of declaration.
    pub fn arrays(&self) -> &[ArrayInfo]
        ensures arrays { result.now ≡ infos_of self.now }
        ensures keeps { Keeps self.now }
    {
        self.arrays.as_slice()
    }

    /// The transaction's body, in numbers.
    pub fn body(&self) -> &[CheckedStmt]
        ensures body { result.now ≡ numbered_body self.now }
        ensures keeps { Keeps self.now }
        // Each field and array in it is one of the program, and each hash has as many arguments as it takes.
        ensures fits { body_fits (length self.now.packet.fields)
            (length (infos_of self.now)) result.now ≡ true }
        // Executing it is executing the source, with the same touched arrays.
        ensures meaning { (start : State)
            → numbered_exec (indexing self.now) result.now start ≡ executed_from self.now start }
        // The arrays that are touched then are those of its sites.
        ensures touches { (start : State) (array : ℕ) → array < length start.touched
            → TouchesBySites self.now start array }
        // Exactly those that the sites it reaches touch, each of which is one of its sites.
        ensures reached { (start : State) → TouchesReached self.now start }
        // It counts as much as the source.
        ensures count { numbered_count result.now (program_indexes self.now) ≡ count_of self.now }
    {
        self.body.as_slice()
    }

    /// The index of an array: that of each of its accesses. None where the array is touched nowhere.
    pub fn index(&self, array: u32) -> Option<&CheckedExpr>
        requires { array < length (infos_of self.now) }
        ensures index { option_copied result ≡ index_of (accesses self.now) array }
        ensures untouched { (option_copied result ≡ None)
            ↔ (is_touched (program_sites self.now) array ≡ false) }
        // Each field in it is one of the program, no array is in it, and each hash has as many arguments as it takes.
        ensures fits { index_fits (length self.now.packet.fields) (option_copied result) ≡ true }
    {
        self.indexes.as_slice()[array as usize].as_ref()
    }
}
