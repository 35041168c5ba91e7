// A case is the plain program with one thing changed, and it is loaded or refused.
use crate::building::*;
use host::{
    Dependency, Export, ModuleInfo, ModuleKind, NodeKind, PackageInfo, ReExportAll,
    ReferenceNamespace, SourceRange, SymbolDecl, SymbolDeclKind, SymbolInfo, SymbolNodeDep,
};
use ids::{ModuleId, NameId, PackageId, SymbolId};
use std::alloc::{AllocError, Global};
use std::test::Fail;
use tables::Tables;

// The last of each kind of the plain program, and the number past it. There are so many names that a list with an
// entry too many can have different ones.
pub const LAST_NAME: NameId = NameId(4096);

pub const NO_NAME: NameId = NameId(4097);

pub const LAST_PACKAGE: PackageId = PackageId(1);

pub const NO_PACKAGE: PackageId = PackageId(2);

pub const LAST_MODULE: ModuleId = ModuleId(2);

pub const NO_MODULE: ModuleId = ModuleId(3);

pub const LAST_SYMBOL: SymbolId = SymbolId(1);

pub const NO_SYMBOL: SymbolId = SymbolId(2);

pub const EMPTY: SourceRange = SourceRange { start: 3, end: 3 };

pub const WHOLE: SourceRange = SourceRange {
    start: 0,
    end: u32::MAX,
};

pub const BACKWARD: SourceRange = SourceRange { start: 3, end: 2 };

pub const PLAIN: Sketch = Sketch {
    names: 4097,
    packages: 2,
    modules: 3,
    package: PackageInfo { entries: None },
    entry: LAST_MODULE,
    module: ModuleInfo {
        kind: ModuleKind::Typed,
        package: Some(LAST_PACKAGE),
        types: None,
        dependencies: 2,
        re_export_alls: 1,
        symbols: 2,
    },
    dependency: Dependency {
        specifier: NameId(0),
        target: None,
    },
    re_export_all: ReExportAll {
        range: EMPTY,
        specifier: NameId(0),
    },
    symbol: SymbolInfo {
        parent: None,
        decls: 1,
        exports: 2,
        members: 1,
    },
    export: Export {
        name: NameId(0),
        symbol: SymbolId(0),
    },
    member: SymbolId(0),
    decl: SymbolDecl {
        range: EMPTY,
        name: None,
        flags: NO_FLAGS,
        kind: SymbolDeclKind::Definition(NodeKind::FnDecl, 1),
    },
    dep: SymbolNodeDep::Id(None, ReferenceNamespace::Both),
};

pub(crate) fn loads(heap: Global, case: &Sketch) -> Result<bool, AllocError> {
    Ok(Tables::load(case.program(heap)?).is_ok())
}

// Each of the cases is loaded, or else each is refused.
fn each(heap: Global, cases: &[Sketch], is_loaded: bool) -> Result<(), Fail> {
    let how = if is_loaded { "loaded" } else { "refused" };
    for (i, case) in cases.iter().enumerate() {
        if loads(heap, case)? != is_loaded {
            return Err(Fail::new(format_args!("case {i} of those that are {how}")));
        }
    }
    Ok(())
}

// Each of the cases keeps the rules.
pub(crate) fn loaded(heap: Global, cases: &[Sketch]) -> Result<(), Fail> {
    each(heap, cases, true)
}

// Each of the cases breaks a rule.
pub(crate) fn refused(heap: Global, cases: &[Sketch]) -> Result<(), Fail> {
    each(heap, cases, false)
}
