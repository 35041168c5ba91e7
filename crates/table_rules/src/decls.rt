// The tests of paths, of ranges and of what stands in a declaration.
ghost use Rattle.std.specs.Prelude.{◌≡◌};
ghost use Rattle.std.specs.List.{list_all};
ghost use Rattle.host.specs.Rules as rules;
ghost use Rattle.host.specs.Tests as tests;
ghost use Rattle.table_rules.specs.Meaning.{kind_of, decl_of};

use crate::checks::{below, few};
use crate::program_table::{DeclKindTable, DeclTable};
use host::{FileDepName, SourceRange, SymbolDeclFlags, SymbolNodeDep};
use ids::{Path, SymbolId};

// Whether each name of a path is known.
fn path_known(names: usize, path: &Path) -> bool
    ensures { result ≡ tests.path_known names path.now }
{
    path.names().iter().all(|name| below(name.0, names))
}

// Whether a symbol is known, if there is one.
fn any_symbol_known(symbols: usize, symbol: Option<SymbolId>) -> bool
    ensures { result ≡ tests.held symbol (tests.symbol_known symbols) }
{
    symbol.is_none_or(|symbol| below(symbol.0, symbols))
}

// A range ends where it starts or later. Its offsets are below 2^32 by their type.
pub(crate) fn range_kept(range: &SourceRange) -> bool
    ensures { result ≡ tests.range_kept range.now }
{
    range.start <= range.end
}

fn file_name_known(names: usize, name: FileDepName) -> bool
    ensures { result ≡ tests.file_name_known names name }
{
    match name {
        FileDepName::Star => true,
        FileDepName::Name(name) => below(name.0, names),
    }
}

fn unflagged(flags: &SymbolDeclFlags) -> bool
    ensures { result ≡ rules.unflagged flags.now }
{
    *flags == SymbolDeclFlags::default()
}

fn is_definition(kind: &DeclKindTable) -> bool
    ensures { result ≡ rules.is_definition (kind_of kind.now) }
{
    matches!(kind, DeclKindTable::Definition(_, _))
}

// How many names the program has, and how many symbols the module.
#[derive(Clone, Copy)]
pub(crate) struct Inside {
    pub(crate) names: usize,
    pub(crate) symbols: usize,
}

impl Inside {
    fn dep_kept(&self, dep: &SymbolNodeDep) -> bool
        ensures { result ≡ tests.dep_kept self.now.names self.now.symbols dep.now }
    {
        match dep {
            SymbolNodeDep::Id(symbol, _) => any_symbol_known(self.symbols, *symbol),
            SymbolNodeDep::QualifiedId(symbol, path) => {
                any_symbol_known(self.symbols, *symbol) && path_known(self.names, path)
            }
            SymbolNodeDep::ImportType(specifier, path) => {
                below(specifier.0, self.names)
                    && path
                        .as_ref()
                        .is_none_or(|path| path_known(self.names, path))
            }
        }
    }

    fn deps_kept(&self, deps: &[SymbolNodeDep]) -> bool
        ensures { result ≡ list_all (tests.dep_kept self.now.names self.now.symbols) deps.now }
    {
        deps.iter().all(|dep| self.dep_kept(dep))
    }

    fn kind_kept(&self, kind: &DeclKindTable) -> bool
        ensures { result ≡ tests.kind_kept self.now.names self.now.symbols (kind_of kind.now) }
    {
        match kind {
            DeclKindTable::Target(symbol) => any_symbol_known(self.symbols, *symbol),
            DeclKindTable::QualifiedTarget(symbol, path) => {
                any_symbol_known(self.symbols, *symbol) && path_known(self.names, path)
            }
            DeclKindTable::FileRef(file) => {
                below(file.specifier.0, self.names) && file_name_known(self.names, file.name)
            }
            DeclKindTable::Definition(_, deps) => few(deps) && self.deps_kept(deps),
        }
    }

    // What a declaration says of itself and of what it refers to.
    pub(crate) fn decl_kept(&self, decl: &DeclTable) -> bool
        ensures { result ≡ tests.decl_kept self.now.names self.now.symbols (decl_of decl.now) }
    {
        range_kept(&decl.range)
            && decl.name.is_none_or(|name| below(name.0, self.names))
            && self.kind_kept(&decl.kind)
            && (is_definition(&decl.kind) || unflagged(&decl.flags))
    }
}
