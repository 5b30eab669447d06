//! The names of a program: what each is declared as, which are used, and the checks of names, calls, lengths and
//! counts, which come before anything is numbered. `check_names` gives one table of what the names stand for, from
//! which sizes, arrays and numbers are read; each check refuses exactly where its definition does, with the first
//! place in text order.
#![tactic(auto)]

mod copies;
mod declarations;
mod fault;
mod infos;
mod name_checks;
mod names;
mod role;
mod scope;
mod size_checks;
mod symbol_table;
mod uses;

pub use copies::{copy_name, copy_names};
pub use fault::{CheckFault, What};
pub use infos::{ArrayInfo, infos_of};
pub use names::{check_names, check_sizes};
pub use role::{Class, Kind, Role, Symbol};
pub use scope::Scope;
pub use symbol_table::Symbols;
