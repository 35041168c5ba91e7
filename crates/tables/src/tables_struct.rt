// The struct stands in a file of its own: the definitions that its methods cite name it.
ghost use Rattle.std.specs.Prelude.{◌≡◌, true};
ghost use Rattle.host.specs.Tests.{valid};
ghost use Rattle.table_rules.specs.Meaning.{program_of};

use table_rules::ProgramTable;

// Tables that keep the rules of the records. They stay as they were loaded.
#[derive(Drop)]
pub struct Tables {
    pub(crate) table: ProgramTable,
    ghost kept: { valid (program_of table) ≡ true },
}
