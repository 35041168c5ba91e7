// What a host tells: small values, with the counts of the lists inside and not the lists.
ghost use Rattle.std.specs.Prelude.{◌≡◌};
ghost use Rattle.host.specs.Namespaces as spec;

use crate::node_kinds::{BOTH, NodeKind, TYPE, VALUE};
use ids::{ModuleId, NameId, PackageId, Path, SymbolId};

// What a module is.
#[derive(Clone, Copy, PartialEq, Eq, Debug)]
pub enum ModuleKind {
    // it could not be loaded
    Missing,
    // TypeScript, or JavaScript with types
    Typed,
    // JavaScript without types
    Untyped,
    Json,
    Wasm,
    // outside the analysed program
    External,
}

impl ModuleKind {
    // The number of the kind, from 0 to 5.
    pub fn number(self) -> u8
        ensures { result ≡ spec.module_kind_number self }
    {
        self as u8
    }
}

// A stretch of a source, in bytes: from `start` to just before `end`.
#[derive(Clone, Copy, PartialEq, Eq, Debug)]
pub struct SourceRange {
    pub start: u32,
    pub end: u32,
}

#[derive(Clone, Copy, PartialEq, Eq, Debug)]
pub struct PackageInfo {
    // how many entry modules it has; none where it has no export table
    pub entries: Option<usize>,
}

#[derive(Clone, Copy, PartialEq, Eq, Debug)]
pub struct ModuleInfo {
    pub kind: ModuleKind,
    pub package: Option<PackageId>,
    // the module that has its types
    pub types: Option<ModuleId>,
    pub dependencies: usize,
    pub re_export_alls: usize,
    pub symbols: usize,
}

// A specifier that a module uses, and the module that it aims at.
#[derive(Clone, Copy, PartialEq, Eq, Debug)]
pub struct Dependency {
    pub specifier: NameId,
    pub target: Option<ModuleId>,
}

// `export * from`, with its specifier.
#[derive(Clone, Copy, PartialEq, Eq, Debug)]
pub struct ReExportAll {
    pub range: SourceRange,
    pub specifier: NameId,
}

#[derive(Clone, Copy, PartialEq, Eq, Debug)]
pub struct SymbolInfo {
    pub parent: Option<SymbolId>,
    pub decls: usize,
    pub exports: usize,
    pub members: usize,
}

#[derive(Clone, Copy, PartialEq, Eq, Debug)]
pub struct Export {
    pub name: NameId,
    pub symbol: SymbolId,
}

#[derive(Clone, Copy, PartialEq, Eq, Default, Debug)]
pub struct SymbolDeclFlags {
    pub overloads: bool,
    pub body: bool,
    pub export: bool,
    pub private: bool,
    pub member: bool,
    pub function: bool,
    pub class: bool,
    // a namespace, or a default class expression
    pub scope: bool,
}

// What is asked of another file: all of its namespace, or one name. An enum and no Option, as in the published source.
#[derive(Clone, Copy, PartialEq, Eq, Debug)]
pub enum FileDepName {
    Star,
    Name(NameId),
}

#[derive(Clone, Copy, PartialEq, Eq, Debug)]
pub struct FileDep {
    pub name: FileDepName,
    pub specifier: NameId,
}

// What a declaration is. A symbol that cannot be found is none.
#[derive(Clone, Copy, PartialEq, Eq, Debug)]
pub enum SymbolDeclKind {
    // an alias of a symbol
    Target(Option<SymbolId>),
    // an alias of a path below a symbol
    QualifiedTarget(Option<SymbolId>, Path),
    // something of another file
    FileRef(FileDep),
    // a declaration of its own, with this many references
    Definition(NodeKind, usize),
}

#[derive(Clone, Copy, PartialEq, Eq, Debug)]
pub struct SymbolDecl {
    pub range: SourceRange,
    pub name: Option<NameId>,
    pub flags: SymbolDeclFlags,
    pub kind: SymbolDeclKind,
}

impl SymbolDecl {
    // Whether it is a value, and whether it is a type, a pair as the published source has it: a definition is what its
    // kind of node is, and any other declaration is both.
    pub fn namespaces(&self) -> (bool, bool)
        ensures { result ≡ spec.decl_namespaces self.now.kind }
    {
        match self.kind {
            SymbolDeclKind::Definition(kind, _) => kind.namespaces(),
            _ => BOTH,
        }
    }
}

// As what an id is referred to.
#[derive(Clone, Copy, PartialEq, Eq, Debug)]
pub enum ReferenceNamespace {
    Value,
    Type,
    Both,
}

impl ReferenceNamespace {
    // Whether it is as a value, and whether it is as a type: a pair, as above.
    pub fn namespaces(self) -> (bool, bool)
        ensures { result ≡ spec.referred self }
    {
        match self {
            ReferenceNamespace::Value => VALUE,
            ReferenceNamespace::Type => TYPE,
            ReferenceNamespace::Both => BOTH,
        }
    }
}

// What a definition refers to.
#[derive(Clone, Copy, PartialEq, Eq, Debug)]
pub enum SymbolNodeDep {
    Id(Option<SymbolId>, ReferenceNamespace),
    QualifiedId(Option<SymbolId>, Path),
    // `import("specifier")`, or a path below it
    ImportType(NameId, Option<Path>),
}
