// The tests of a module.
ghost use Rattle.std.specs.Prelude.{◌≡◌, ◌&&◌, map, length};
ghost use Rattle.std.specs.List.{list_all};
ghost use Rattle.host.specs.Rules as rules;
ghost use Rattle.host.specs.Tests as tests;
ghost use Rattle.table_rules.specs.Groups as spec;
ghost use Rattle.table_rules.specs.Meaning.{symbol_of, module_of};

use crate::checks::{below, few};
use crate::decls::{Inside, range_kept};
use crate::program_table::{ModuleTable, SymbolTable};
use host::{Dependency, ModuleKind, ReExportAll, distinct};
use ids::ModuleId;

// Only a typed module has its types in another one.
fn types_allowed(kind: ModuleKind, types: Option<ModuleId>) -> bool
    ensures { result ≡ tests.held types (λ _. rules.is_typed kind) }
{
    types.is_none_or(|_| kind == ModuleKind::Typed)
}

// A missing or external module has nothing inside; any other has at least the symbol of the module itself.
fn lists_kept(kind: ModuleKind, dependencies: usize, re_export_alls: usize, symbols: usize) -> bool
    ensures { result ≡ tests.lists_kept kind dependencies re_export_alls symbols }
{
    match kind {
        ModuleKind::Missing | ModuleKind::External => {
            dependencies == 0 && re_export_alls == 0 && symbols == 0
        }
        _ => symbols >= 1,
    }
}

// How much is inside a module.
fn amounts_kept(module: &ModuleTable) -> bool
    ensures { result ≡ tests.lists_kept «module».now.kind (length «module».now.dependencies.items) (length «module».now.re_export_alls.items) (length (map symbol_of «module».now.symbols.items)) }
{
    lists_kept(
        module.kind,
        module.dependencies.len(),
        module.re_export_alls.len(),
        module.symbols.len(),
    )
}

// The rules of each symbol of a module.
fn symbols_kept(names: usize, symbols: &[SymbolTable]) -> bool
    ensures { result ≡ tests.all_at (tests.symbol_kept names (length (map symbol_of symbols.now))) 0 (map symbol_of symbols.now) }
{
    let inside = Inside {
        names,
        symbols: symbols.len(),
    };
    symbols
        .iter()
        .enumerate()
        .all(|(number, symbol)| inside.symbol_kept(number, symbol))
}

// How many names, packages and modules the program has.
#[derive(Clone, Copy)]
pub(crate) struct Counts {
    pub(crate) names: usize,
    pub(crate) packages: usize,
    pub(crate) modules: usize,
}

impl Counts {
    // What a module says of itself: its package, the module that has its types, how much is inside.
    fn head_kept(&self, module: &ModuleTable) -> bool
        ensures { result ≡ spec.head_kept self.now.packages self.now.modules (module_of «module».now) }
    {
        module
            .package
            .is_none_or(|package| below(package.0, self.packages))
            && module
                .types
                .is_none_or(|types| below(types.0, self.modules))
            && types_allowed(module.kind, module.types)
            && amounts_kept(module)
    }

    fn dependency_kept(&self, dependency: &Dependency) -> bool
        ensures { result ≡ tests.dependency_kept self.now.names self.now.modules dependency.now }
    {
        below(dependency.specifier.0, self.names)
            && dependency
                .target
                .is_none_or(|target| below(target.0, self.modules))
    }

    fn dependencies_known(&self, dependencies: &[Dependency]) -> bool
        ensures { result ≡ list_all (tests.dependency_kept self.now.names self.now.modules) dependencies.now }
    {
        dependencies
            .iter()
            .all(|dependency| self.dependency_kept(dependency))
    }

    // Each is known, and no two have the same specifier.
    fn dependencies_kept(&self, dependencies: &[Dependency]) -> bool
        ensures { result ≡ (list_all (tests.dependency_kept self.now.names self.now.modules) dependencies.now && tests.distinct (map (λ d. d.specifier.0) dependencies.now)) }
    {
        self.dependencies_known(dependencies)
            && distinct(dependencies, |dependency| dependency.specifier.0)
    }

    fn re_export_all_kept(&self, all: &ReExportAll) -> bool
        ensures { result ≡ tests.re_export_all_kept self.now.names all.now }
    {
        range_kept(&all.range) && below(all.specifier.0, self.names)
    }

    fn re_export_alls_kept(&self, alls: &[ReExportAll]) -> bool
        ensures { result ≡ list_all (tests.re_export_all_kept self.now.names) alls.now }
    {
        alls.iter().all(|all| self.re_export_all_kept(all))
    }

    // What is inside a module.
    fn contents_kept(&self, module: &ModuleTable) -> bool
        ensures { result ≡ spec.contents_kept self.now.names self.now.modules (module_of «module».now) }
    {
        few(&module.dependencies)
            && self.dependencies_kept(&module.dependencies)
            && few(&module.re_export_alls)
            && self.re_export_alls_kept(&module.re_export_alls)
            && few(&module.symbols)
            && symbols_kept(self.names, &module.symbols)
    }

    fn module_kept(&self, module: &ModuleTable) -> bool
        ensures { result ≡ tests.module_kept self.now.names self.now.packages self.now.modules (module_of «module».now) }
    {
        self.head_kept(module) && self.contents_kept(module)
    }

    // The rules of each module of the program.
    pub(crate) fn modules_kept(&self, modules: &[ModuleTable]) -> bool
        ensures { result ≡ list_all (tests.module_kept self.now.names self.now.packages self.now.modules) (map module_of modules.now) }
    {
        modules.iter().all(|module| self.module_kept(module))
    }
}
