// What cannot be read, and how it is told.
use crate::reading::{MODULE_LIMIT, NAME_LIMIT};
use ids::PATH_LIMIT;
use std::fmt;
use words::Describe;

// What is wrong with a line.
#[derive(Clone, Copy, PartialEq, Eq, Debug)]
pub enum Problem {
    // only a module stands on the line
    NoRequest,
    // a word follows the request
    TooManyWords,
    // a dot has no name on one of its sides
    EmptyName,
    // the path has this many names
    TooManyNames(usize),
    // the module is one too many
    TooManyModules,
    // a name of the path is one too many
    TooManyDistinctNames,
}

// Why a text is not read.
pub type Fault = words::Fault<Problem>;

// Why a word is not read: the caller knows the word and its line.
pub(crate) type Unread = words::Unread<Problem>;

// What was expected in place of the word, and what was found.
impl Describe for Problem {
    fn describe<W: fmt::Write>(&self, word: &str, f: &mut fmt::Formatter<W>) -> fmt::Result {
        match self {
            Problem::NoRequest => { write!(f, "a request after the module, found only \"{word}\"") }
            Problem::TooManyWords => {
                write!(f, "a module and a request, found \"{word}\" after them")
            }
            Problem::EmptyName => {
                write!(f, "a name on each side of a dot, found none in \"{word}\"")
            }
            Problem::TooManyNames(count) => {
                write!(
                    f,
                    "a path of at most {PATH_LIMIT} names, found {count} in \"{word}\""
                )
            }
            Problem::TooManyModules => {
                write!(
                    f,
                    "at most {MODULE_LIMIT} modules, found one more, \"{word}\""
                )
            }
            Problem::TooManyDistinctNames => {
                write!(
                    f,
                    "at most {NAME_LIMIT} different names, found one more in \"{word}\""
                )
            }
        }
    }
}
