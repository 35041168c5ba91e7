// What is told of a record of the tables: itself, with the counts of the lists inside. These are functions and not
// `From`: it would have to stand beside the tables, in the crate below, and say in a ghost member what is a clause here.
ghost use Rattle.std.specs.Prelude.{◌≡◌};
ghost use Rattle.host.specs.Program.{told_kind, told_decl, told_symbol, told_module, told_package};
ghost use Rattle.table_rules.specs.Meaning.{kind_of, decl_of, symbol_of, module_of, package_of};

use host::{ModuleInfo, PackageInfo, SymbolDecl, SymbolDeclKind, SymbolInfo};
use table_rules::{DeclKindTable, DeclTable, ModuleTable, PackageTable, SymbolTable};

pub(crate) fn package_info(package: &PackageTable) -> PackageInfo
    ensures { result ≡ told_package (package_of «package».now) }
{
    PackageInfo {
        entries: package.entries.as_ref().map(Vec::len),
    }
}

pub(crate) fn module_info(module: &ModuleTable) -> ModuleInfo
    ensures { result ≡ told_module (module_of «module».now) }
{
    ModuleInfo {
        kind: module.kind,
        package: module.package,
        types: module.types,
        dependencies: module.dependencies.len(),
        re_export_alls: module.re_export_alls.len(),
        symbols: module.symbols.len(),
    }
}

pub(crate) fn symbol_info(symbol: &SymbolTable) -> SymbolInfo
    ensures { result ≡ told_symbol (symbol_of symbol.now) }
{
    SymbolInfo {
        parent: symbol.parent,
        decls: symbol.decls.len(),
        exports: symbol.exports.len(),
        members: symbol.members.len(),
    }
}

fn kind_info(kind: &DeclKindTable) -> SymbolDeclKind
    ensures { result ≡ told_kind (kind_of kind.now) }
{
    match kind {
        DeclKindTable::Target(symbol) => SymbolDeclKind::Target(*symbol),
        DeclKindTable::QualifiedTarget(symbol, path) => {
            SymbolDeclKind::QualifiedTarget(*symbol, *path)
        }
        DeclKindTable::FileRef(file) => SymbolDeclKind::FileRef(*file),
        DeclKindTable::Definition(kind, deps) => SymbolDeclKind::Definition(*kind, deps.len()),
    }
}

pub(crate) fn decl_info(decl: &DeclTable) -> SymbolDecl
    ensures { result ≡ told_decl (decl_of decl.now) }
{
    SymbolDecl {
        range: decl.range,
        name: decl.name,
        flags: decl.flags,
        kind: kind_info(&decl.kind),
    }
}
