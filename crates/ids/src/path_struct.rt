// The struct stands in a file of its own: the definitions that its methods cite name it.
ghost use Rattle.std.specs.Prelude.{◌≡◌, ◌≤◌, true, length, drop};
ghost use Rattle.ids.specs.Names.{limit, blank};

use crate::numbers::NameId;

// The most names that a path can have. `limit` of specs/Names.antt is the same number.
pub const PATH_LIMIT: usize = 8;

// One to PATH_LIMIT names. What stands behind the last one is all name 0, so two paths of the
// same names are the same value.
// Memory is fixed: a path is copied and asks for none, so an array with a length holds its names.
#[derive(Clone, Copy)]
pub struct Path {
    pub(crate) names: [NameId; PATH_LIMIT],
    pub(crate) len: usize,
    ghost wide: { length names ≡ limit },
    ghost some: { 1 ≤ len },
    ghost few: { len ≤ limit },
    ghost padded: { blank (drop len names) ≡ true },
}
