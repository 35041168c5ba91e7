// Loading: tables are taken where they keep every rule. No call asks for memory.
ghost use Rattle.tables.specs.Loading as spec;

use crate::refusals::Refusal;
use crate::tables_struct::Tables;
use table_rules::{ProgramTable, keeps_rules};

impl Tables {
    // The tables as they were handed in, or a refusal where they break a rule.
    pub fn load(table: ProgramTable) -> Result<Tables, Refusal>
        ensures { spec.Loads table result }
    {
        if keeps_rules(&table) {
            Ok(Tables { table })
        } else {
            Err(Refusal::BrokenRule)
        }
    }
}
