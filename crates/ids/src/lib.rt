// The numbers by which an analysed program is told, and paths of names.
#![tactic(auto)]

mod numbers;
mod path_struct;
mod paths;

pub use numbers::{ModuleId, NameId, PackageId, SymbolId};
pub use path_struct::{PATH_LIMIT, Path};
pub use paths::PathError;
