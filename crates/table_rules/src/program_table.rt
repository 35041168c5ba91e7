// The tables that a caller fills: nested lists. The number of a record is its place in its list.
use host::{
    Dependency, Export, FileDep, ModuleKind, NodeKind, ReExportAll, SourceRange, SymbolDeclFlags,
    SymbolNodeDep,
};
use ids::{ModuleId, NameId, PackageId, Path, SymbolId};

#[derive(Drop)]
pub struct ProgramTable {
    // how many names there are
    pub names: u32,
    pub packages: Vec<PackageTable>,
    pub modules: Vec<ModuleTable>,
}

#[derive(Drop)]
pub struct PackageTable {
    // the entry modules; none where the package has no export table
    pub entries: Option<Vec<ModuleId>>,
}

#[derive(Drop)]
pub struct ModuleTable {
    pub kind: ModuleKind,
    pub package: Option<PackageId>,
    // the module that has its types
    pub types: Option<ModuleId>,
    pub dependencies: Vec<Dependency>,
    pub re_export_alls: Vec<ReExportAll>,
    pub symbols: Vec<SymbolTable>,
}

#[derive(Drop)]
pub struct SymbolTable {
    pub parent: Option<SymbolId>,
    pub decls: Vec<DeclTable>,
    pub exports: Vec<Export>,
    pub members: Vec<SymbolId>,
}

#[derive(Drop)]
pub struct DeclTable {
    pub range: SourceRange,
    pub name: Option<NameId>,
    pub flags: SymbolDeclFlags,
    pub kind: DeclKindTable,
}

// What a declaration is. A symbol that cannot be found is none. An enum beside the host's `SymbolDeclKind`, and a
// `DeclTable` beside its `SymbolDecl`: those have counts, and one type over what a definition carries would put that
// parameter into each definition that speaks of either.
#[derive(Drop)]
pub enum DeclKindTable {
    // an alias of a symbol
    Target(Option<SymbolId>),
    // an alias of a path below a symbol
    QualifiedTarget(Option<SymbolId>, Path),
    // something of another file
    FileRef(FileDep),
    // a declaration of its own, with its references
    Definition(NodeKind, Vec<SymbolNodeDep>),
}
