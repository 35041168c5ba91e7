// What a table of records is made of.
use ids::{ModuleId, Path};

// How far the record of a module goes.
#[derive(Clone, Copy, PartialEq, Eq, Debug)]
pub enum Extent {
    // the paths of the module's rows
    Paths,
    // every path that does not begin with `default`
    Star,
    // every path
    Full,
}

// A path that is kept for a module.
#[derive(Clone, Copy, PartialEq, Eq, Debug)]
pub struct Row {
    pub module: ModuleId,
    pub path: Path,
}
