//! What the passes make of a row's program.

use branch_removal::remove_branches;
use code_forms::{FlatCode, GuardCode, Layout, StagedCode};
use code_graph::codelets;
use index_resolve::resolve;
use mp5_words::NoMemory;
use ssa_flatten::{FlatFault, flatten};
use stage_packing::pack;
use std::alloc::Global;
use table_rows::{Row, Trouble, checked_of};

/// The guarded lines.
pub fn lines_of(alloc: Global, row: &Row<'_>) -> Result<GuardCode, Trouble> {
    let checked = checked_of(alloc, row)?;
    Ok(remove_branches(alloc, &checked)?)
}

/// The flat code, or why there is none.
pub fn flattened(alloc: Global, row: &Row<'_>) -> Result<Result<FlatCode, FlatFault>, Trouble> {
    let code = lines_of(alloc, row)?;
    Ok(flatten(alloc, &code))
}

/// The flat code of a row that has few enough instructions.
pub fn flat_of(alloc: Global, row: &Row<'_>) -> Result<FlatCode, Trouble> {
    match flattened(alloc, row)? {
        Ok(code) => Ok(code),
        Err(_) => Err(Trouble::Row),
    }
}

/// The layout of flat code with its own codelets.
pub fn layout_of(alloc: Global, code: &FlatCode) -> Result<Layout, NoMemory> {
    let codelets = codelets(alloc, code)?;
    pack(alloc, code, &codelets)
}

/// Flat code in the parts of its own layout.
pub fn staged_of(alloc: Global, code: &FlatCode) -> Result<StagedCode, NoMemory> {
    let codelets = codelets(alloc, code)?;
    let layout = pack(alloc, code, &codelets)?;
    resolve(alloc, code, &layout)
}
