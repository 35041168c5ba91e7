// Every rule of the records, checked over tables. No call asks for memory.
ghost use Rattle.std.specs.Prelude.{◌≡◌, ◌&&◌, map, Decides, nat_le};
ghost use Rattle.host.specs.Program.{Program};
ghost use Rattle.host.specs.Rules as rules;
ghost use Rattle.host.specs.Tests as tests;
ghost use Rattle.table_rules.specs.Meaning.{module_of, package_of, program_of};

use crate::modules::Counts;
use crate::packages::package_kept;
use crate::program_table::{ModuleTable, PackageTable, ProgramTable};

// The limits of the host's rules are the same numbers.
const NAME_LIMIT: u32 = 65535;

const PACKAGE_LIMIT: usize = 256;

const MODULE_LIMIT: usize = 1024;

// Names 0 and 1 are there, and there are not too many names, packages and modules.
fn sizes_kept(names: u32, packages: usize, modules: usize) -> bool
    ensures { result ≡ (nat_le 2 names && (nat_le names rules.name_limit && (nat_le packages rules.package_limit && nat_le modules rules.module_limit))) }
{
    (2..=NAME_LIMIT).contains(&names) && packages <= PACKAGE_LIMIT && modules <= MODULE_LIMIT
}

// The rules of each package of the program.
fn packages_kept(modules: &[ModuleTable], packages: &[PackageTable]) -> bool
    ensures { result ≡ tests.all_at (tests.package_kept (map module_of modules.now)) 0 (map package_of packages.now) }
{
    packages
        .iter()
        .enumerate()
        .all(|(number, package)| package_kept(modules, number, package))
}

// Whether tables keep the rules: the computed test, and the rules as they are to be read. The two say the same of every
// program, told by tables or not.
pub fn keeps_rules(table: &ProgramTable) -> bool
    ensures valid { result ≡ tests.valid (program_of table.now) }
    ensures kept { Decides result (rules.Kept (program_of table.now)) }
    ensures alike { (p : Program) → Decides (tests.valid p) (rules.Kept p) }
{
    let counts = Counts {
        names: table.names as usize,
        packages: table.packages.len(),
        modules: table.modules.len(),
    };
    sizes_kept(table.names, table.packages.len(), table.modules.len())
        && packages_kept(&table.modules, &table.packages)
        && counts.modules_kept(&table.modules)
}
