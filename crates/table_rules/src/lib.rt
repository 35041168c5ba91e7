// Tables that a caller fills, and whether they keep the rules of the records.
#![tactic(auto)]

mod checks;
mod decls;
mod modules;
mod packages;
mod program_table;
mod rules;
mod symbols;

pub use program_table::{
    DeclKindTable, DeclTable, ModuleTable, PackageTable, ProgramTable, SymbolTable,
};
pub use rules::keeps_rules;
