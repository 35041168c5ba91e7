// The tables of a program while they are filled.
use table_rules::ProgramTable;

// What the last line of a package or a module was.
#[derive(Clone, Copy)]
pub(crate) enum Open {
    Package,
    Module,
}

#[derive(Drop)]
pub(crate) struct Draft {
    pub(crate) table: ProgramTable,
    // none before the first such line
    pub(crate) open: Option<Open>,
}
