// What a finder may ask of an analysed program, and what the answers mean.
#![tactic(auto)]

mod host;
mod lists;
mod node_kinds;
mod told;

pub use host::Host;
pub use lists::distinct;
pub use node_kinds::NodeKind;
pub use told::{
    Dependency, Export, FileDep, FileDepName, ModuleInfo, ModuleKind, PackageInfo, ReExportAll,
    ReferenceNamespace, SourceRange, SymbolDecl, SymbolDeclFlags, SymbolDeclKind, SymbolInfo,
    SymbolNodeDep,
};
