// What is read of a text.
use crate::draft::Draft;
use crate::texts::Texts;
use table_rules::ProgramTable;
use words::Names;

// The records of a text, and what their numbers stand for.
#[derive(Drop)]
pub struct Listing {
    pub table: ProgramTable,
    pub names: Names,
    pub modules: Names,
    pub packages: Names,
}

// The tables while the lines are read.
#[derive(Drop)]
pub(crate) struct Reader {
    pub(crate) texts: Texts,
    pub(crate) draft: Draft,
}
