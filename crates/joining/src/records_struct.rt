// The struct stands in a file of its own: the definitions that its methods cite name it.
ghost use Rattle.std.specs.Prelude.{◌≡◌, ◌≤◌, true, vec_len, vec_capacity};
ghost use Rattle.joining.specs.Rows as spec;

use crate::rows::{Extent, Row};

// The records of many modules. The kept paths of all of them stand in one list of rows, which is
// reserved at the making and never grows past its limit.
// Memory is fixed: no call but the making asks for any, so the limit stands beside the rows.
#[derive(Drop)]
pub struct Records {
    pub(crate) extents: Vec<Extent>,
    pub(crate) rows: Vec<Row>,
    pub(crate) limit: usize,
    // a row can be added, up to the limit, without asking for memory
    ghost room: { limit ≤ vec_capacity rows },
    ghost few: { vec_len rows ≤ limit },
    // each row is of a module of the table that keeps paths
    ghost tidy: { spec.tidy extents.items rows.items ≡ true },
    // no two kept paths of one module cover one another
    ghost apart: { spec.apart rows.items ≡ true },
}
