// What one line of a text of records says.
use host::{
    Dependency, Export, FileDep, ModuleKind, NodeKind, ReExportAll, SourceRange, SymbolDeclFlags,
    SymbolNodeDep,
};
use ids::{ModuleId, NameId, PackageId, Path, SymbolId};

#[derive(Clone, Copy)]
pub(crate) enum Item {
    // a package, and whether it has an export table: both are told of each package, so the flag guards no value
    Package(PackageId, bool),
    // an entry module of the package above
    Entry(ModuleId),
    Module(ModuleId, ModuleHead),
    // a part of the module above
    Part(ModulePart),
}

#[derive(Clone, Copy)]
pub(crate) struct ModuleHead {
    pub(crate) kind: ModuleKind,
    pub(crate) package: Option<PackageId>,
    pub(crate) types: Option<ModuleId>,
}

#[derive(Clone, Copy)]
pub(crate) enum ModulePart {
    Depends(Dependency),
    ExportsAll(ReExportAll),
    // a symbol with its parent
    Symbol(Option<SymbolId>),
    // a part of the symbol above
    Inner(SymbolPart),
}

#[derive(Clone, Copy)]
pub(crate) enum SymbolPart {
    Exports(Export),
    Member(SymbolId),
    Declares(Declaration),
    // a reference of the definition above
    Refers(SymbolNodeDep),
}

#[derive(Clone, Copy)]
pub(crate) struct DeclarationHead {
    pub(crate) range: SourceRange,
    pub(crate) name: Option<NameId>,
}

#[derive(Clone, Copy)]
pub(crate) struct Declaration {
    pub(crate) head: DeclarationHead,
    pub(crate) kind: DeclarationKind,
}

// An enum beside the tables' `DeclKindTable`: a line has the flags of a definition, and no list of references yet.
#[derive(Clone, Copy)]
pub(crate) enum DeclarationKind {
    Alias(Option<SymbolId>),
    QualifiedAlias(Option<SymbolId>, Path),
    File(FileDep),
    Defines(NodeKind, SymbolDeclFlags),
}
