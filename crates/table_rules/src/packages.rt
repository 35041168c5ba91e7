// The tests of a package.
ghost use Rattle.std.specs.Prelude.{◌≡◌, map};
ghost use Rattle.std.specs.List.{list_all};
ghost use Rattle.host.specs.Rules as rules;
ghost use Rattle.host.specs.Tests as tests;
ghost use Rattle.table_rules.specs.Meaning.{module_of, package_of};

use crate::checks::few;
use crate::program_table::{ModuleTable, PackageTable};
use ids::{ModuleId, PackageId};

// Whether this is the package of that number.
fn is_number(package: usize, owner: Option<PackageId>) -> bool
    ensures { result ≡ tests.is_number «package» (rules.number_of owner) }
{
    owner.is_some_and(|owner| owner.0 as usize == package)
}

// Whether an entry of the package of that number is one of its modules.
fn entry_kept(modules: &[ModuleTable], package: usize, entry: ModuleId) -> bool
    ensures { result ≡ tests.entry_kept (map module_of modules.now) «package» entry }
{
    modules
        .get(entry.0 as usize)
        .is_some_and(|module| is_number(package, module.package))
}

// Whether each entry of the package of that number is one of its modules.
fn each_entry_kept(modules: &[ModuleTable], package: usize, entries: &[ModuleId]) -> bool
    ensures { result ≡ list_all (tests.entry_kept (map module_of modules.now) «package») entries.now }
{
    entries
        .iter()
        .all(|entry| entry_kept(modules, package, *entry))
}

// The rules of the package of that number.
pub(crate) fn package_kept(modules: &[ModuleTable], package: usize, table: &PackageTable) -> bool
    ensures { result ≡ tests.package_kept (map module_of modules.now) «package» (package_of table.now) }
{
    table.entries.as_ref().is_none_or(|entries| few(entries)
        && each_entry_kept(modules, package, entries))
}
