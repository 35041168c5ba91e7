// Words become requests.
ghost use Rattle.std.specs.Prelude.{◌≡◌};
ghost use Rattle.script.specs.Faults.{RequestRead, unread_of_path};
ghost use Rattle.words.specs.Interned.{texts};

use crate::faults::{Problem, Unread};
use joining::Request;
use std::alloc::Global;
use words::{Names, PathFault, read_path};

// A fault of a path, as one of its line. No `From`: both sides are types of `words`.
fn unread_of(fault: PathFault) -> Unread
    ensures { result ≡ unread_of_path fault }
{
    match fault {
        PathFault::EmptyName => Unread::Of(Problem::EmptyName),
        PathFault::TooManyNames(count) => Unread::Of(Problem::TooManyNames(count)),
        PathFault::TooManyDistinctNames => Unread::Of(Problem::TooManyDistinctNames),
        PathFault::NoMemory => Unread::NoMemory,
    }
}

// The request that a word asks for.
pub(crate) fn read_request(heap: Global, names: &mut Names, word: &str) -> Result<Request, Unread>
    ensures { RequestRead (texts names.old) word.now (texts names.new) result }
{
    match word {
        "star" => Ok(Request::Star),
        "full" => Ok(Request::Full),
        _ => {
            let bare = word.strip_prefix('.').unwrap_or(word);
            let path = read_path(heap, names, bare).map_err(unread_of)?;
            Ok(Request::Path(path))
        }
    }
}
