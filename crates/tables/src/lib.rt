// A host over tables that are held in memory. The tables are checked once, where they are loaded.
#![tactic(auto)]

mod infos;
mod loading;
mod refusals;
mod tables_struct;
mod telling;

pub use refusals::Refusal;
pub use table_rules::{
    DeclKindTable, DeclTable, ModuleTable, PackageTable, ProgramTable, SymbolTable,
};
pub use tables_struct::Tables;
