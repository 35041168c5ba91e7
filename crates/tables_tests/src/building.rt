// Programs are built from a sketch: how long each list is, and what stands in it.
use host::{
    Dependency, Export, ModuleInfo, ModuleKind, PackageInfo, ReExportAll, SourceRange, SymbolDecl,
    SymbolDeclFlags, SymbolDeclKind, SymbolInfo, SymbolNodeDep,
};
use ids::{ModuleId, NameId, PackageId, SymbolId};
use std::alloc::{AllocError, Global};
use std::iter;
use tables::{DeclKindTable, DeclTable, ModuleTable, PackageTable, ProgramTable, SymbolTable};

// The last package, the last module and its last symbol are as the sketch says; what stands before them is plain:
// packages without an export table, external modules, symbols with one declaration.
#[derive(Clone, Copy)]
pub struct Sketch {
    pub names: u32,
    pub packages: usize,
    pub modules: usize,
    pub package: PackageInfo,
    pub entry: ModuleId,
    pub module: ModuleInfo,
    // the first dependency; the others have the specifiers 1, 2, ..
    pub dependency: Dependency,
    pub re_export_all: ReExportAll,
    pub symbol: SymbolInfo,
    // the first export; the others have the names 1, 2, ..
    pub export: Export,
    pub member: SymbolId,
    pub decl: SymbolDecl,
    pub dep: SymbolNodeDep,
}

// A constant, since the plain sketch is one: `default()` cannot be called there.
pub const NO_FLAGS: SymbolDeclFlags = SymbolDeclFlags {
    overloads: false,
    body: false,
    export: false,
    private: false,
    member: false,
    function: false,
    class: false,
    scope: false,
};

// So many elements: the first is handed in, and those after it are made of the numbers 1, 2, ..
fn numbered<T: Drop, F: Fn(u32) -> T + Drop>(
    heap: Global,
    count: usize,
    first: T,
    other: F,
) -> Result<Vec<T>, AllocError>
    requires { (state : F) (x : _) → F.pre state x }
{
    iter::once(first)
        .chain((1..u32::MAX).map(other))
        .take(count)
        .collect(heap)
}

fn plain_symbol(heap: Global) -> Result<SymbolTable, AllocError> {
    let decl = DeclTable {
        range: SourceRange { start: 0, end: 0 },
        name: None,
        flags: SymbolDeclFlags::default(),
        kind: DeclKindTable::Target(None),
    };
    Ok(SymbolTable {
        parent: None,
        decls: vec![in heap; decl]?,
        exports: Vec::new(heap),
        members: Vec::new(heap),
    })
}

fn plain_module(heap: Global, package: Option<PackageId>) -> ModuleTable {
    ModuleTable {
        kind: ModuleKind::External,
        package,
        types: None,
        dependencies: Vec::new(heap),
        re_export_alls: Vec::new(heap),
        symbols: Vec::new(heap),
    }
}

impl Sketch {
    fn dependencies(&self, heap: Global) -> Result<Vec<Dependency>, AllocError> {
        numbered(
            heap,
            self.module.dependencies,
            self.dependency,
            |n| Dependency {
                specifier: NameId(n),
                target: None,
            },
        )
    }

    fn exports(&self, heap: Global) -> Result<Vec<Export>, AllocError> {
        numbered(
            heap,
            self.symbol.exports,
            self.export,
            |n| Export {
                name: NameId(n),
                symbol: SymbolId(0),
            },
        )
    }

    fn decl(&self, heap: Global) -> Result<DeclTable, AllocError> {
        let kind = match self.decl.kind {
            SymbolDeclKind::Target(symbol) => DeclKindTable::Target(symbol),
            SymbolDeclKind::QualifiedTarget(symbol, path) => {
                DeclKindTable::QualifiedTarget(symbol, path)
            }
            SymbolDeclKind::FileRef(file) => DeclKindTable::FileRef(file),
            SymbolDeclKind::Definition(kind, deps) => {
                DeclKindTable::Definition(kind, vec![in heap; self.dep; deps]?)
            }
        };
        Ok(DeclTable {
            range: self.decl.range,
            name: self.decl.name,
            flags: self.decl.flags,
            kind,
        })
    }

    fn decls(&self, heap: Global) -> Result<Vec<DeclTable>, AllocError> {
        (0..self.symbol.decls)
            .map(|_| self.decl(heap))
            .try_collect(heap)
    }

    fn symbol(&self, heap: Global) -> Result<SymbolTable, AllocError> {
        Ok(SymbolTable {
            parent: self.symbol.parent,
            decls: self.decls(heap)?,
            exports: self.exports(heap)?,
            members: vec![in heap; self.member; self.symbol.members]?,
        })
    }

    fn symbols(&self, heap: Global) -> Result<Vec<SymbolTable>, AllocError> {
        let mut list: Vec<SymbolTable> = (1..self.module.symbols)
            .map(|_| plain_symbol(heap))
            .try_collect(heap)?;
        if self.module.symbols > 0 {
            list.push(self.symbol(heap)?)?;
        }
        Ok(list)
    }

    fn module(&self, heap: Global) -> Result<ModuleTable, AllocError> {
        Ok(ModuleTable {
            kind: self.module.kind,
            package: self.module.package,
            types: self.module.types,
            dependencies: self.dependencies(heap)?,
            re_export_alls: vec![in heap; self.re_export_all; self.module.re_export_alls]?,
            symbols: self.symbols(heap)?,
        })
    }

    // Module 0 is of package 0, and the other plain ones are of none.
    fn modules(&self, heap: Global) -> Result<Vec<ModuleTable>, AllocError> {
        let mut list: Vec<ModuleTable> = (1..self.modules)
            .map(|count| plain_module(heap, (count == 1).then_some(PackageId(0))))
            .collect(heap)?;
        list.push(self.module(heap)?)?;
        Ok(list)
    }

    fn entries(&self, heap: Global) -> Result<Option<Vec<ModuleId>>, AllocError> {
        self.package
            .entries
            .map(|count| vec![in heap; self.entry; count])
            .transpose()
    }

    fn packages(&self, heap: Global) -> Result<Vec<PackageTable>, AllocError> {
        let mut list: Vec<PackageTable> = (1..self.packages)
            .map(|_| PackageTable { entries: None })
            .collect(heap)?;
        list.push(PackageTable {
            entries: self.entries(heap)?,
        })?;
        Ok(list)
    }

    pub(crate) fn program(&self, heap: Global) -> Result<ProgramTable, AllocError> {
        Ok(ProgramTable {
            names: self.names,
            packages: self.packages(heap)?,
            modules: self.modules(heap)?,
        })
    }
}
