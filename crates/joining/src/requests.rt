// What is asked of a module.
ghost use Rattle.std.specs.Prelude.{◌≡◌, if◌then◌else◌, Some, None};
ghost use Rattle.joining.specs.Joining.{star, full, joined, handed};
ghost use Rattle.joining.specs.Laws as laws;
ghost use Rattle.joining.specs.Wanted as spec;
ghost use Rattle.ids.specs.Paths.{names_of, default_path};

use crate::covering::{covers, of_default};
use ids::Path;

#[derive(Clone, Copy, PartialEq, Eq, Debug)]
pub enum Request {
    // one path, with all that goes on from it
    Path(Path),
    // every path that does not begin with `default`
    Star,
    // every path
    Full,
}

impl Request {
    // Whether the request asks for this path.
    pub fn covers(&self, path: &Path) -> bool
        ensures { result ≡ laws.covers_request self.now (names_of path.now) }
    {
        match self {
            Request::Path(front) => covers(front.names(), path.names()),
            Request::Star => !of_default(path.names()),
            Request::Full => true,
        }
    }

    // Whether the request asks for something that begins with `default`: joined to star, it makes the
    // record full, and `default` is new.
    pub(crate) fn asks_default(&self) -> bool
        ensures after { joined star self.now ≡ (if result then full else star) }
        ensures out { handed star self.now ≡ (if result then Some (Request.Path default_path) else None) }
    {
        match self {
            Request::Path(path) => of_default(path.names()),
            Request::Star => false,
            Request::Full => true,
        }
    }

    // How many rows must be free where the request is joined: a path may need one.
    pub fn rows_wanted(&self) -> usize
        ensures { result ≡ spec.rows_wanted self.now }
    {
        match self {
            Request::Path(_) => 1,
            Request::Star => 0,
            Request::Full => 0,
        }
    }
}
