// Why a word is not read, and where in a text the word stands. A text's reader brings a type of its own for what is wrong.
ghost use Rattle.std.specs.Prelude.{◌≡◌};
ghost use Rattle.words.specs.declared.faults.Fault.TheVariants.{NoMemory};
ghost use Rattle.words.specs.declared.faults.Unread.TheVariants.{NoMemory as NoMemoryLeft};
ghost use Rattle.words.specs.Faults.{Placed};

use std::alloc::{AllocError, AllocFailed, Global};
use std::fmt;

// Why a word is not read: the caller knows the word and its line. An error type and not `Option<P>`: `?` makes it of an
// `AllocError`.
#[derive(Clone, Copy, Debug)]
pub enum Unread<P> {
    Of(P),
    NoMemory,
}

impl<P> From<AllocError> for Unread<P> {
    ghost from_gives = { λ _ u. u ≡ NoMemoryLeft };

    fn from(_error: AllocError) -> Unread<P> {
        Unread::NoMemory
    }
}

impl<P, T: Drop> From<AllocFailed<T>> for Unread<P> {
    ghost from_gives = { λ _ u. u ≡ NoMemoryLeft };

    fn from(_refused: AllocFailed<T>) -> Unread<P> {
        Unread::NoMemory
    }
}

// Why a text is not read.
#[derive(Drop, Debug)]
pub enum Fault<P> {
    // the first line that has a problem, and the word that the problem is at
    Line {
        number: usize,
        problem: P,
        word: String,
    },
    NoMemory,
}

impl<P> From<AllocError> for Fault<P> {
    ghost from_gives = { λ _ f. f ≡ NoMemory };

    fn from(_error: AllocError) -> Fault<P> {
        Fault::NoMemory
    }
}

impl<P, T: Drop> From<AllocFailed<T>> for Fault<P> {
    ghost from_gives = { λ _ f. f ≡ NoMemory };

    fn from(_refused: AllocFailed<T>) -> Fault<P> {
        Fault::NoMemory
    }
}

impl<P: Drop> Unread<P> {
    // The fault at a word of a line.
    pub fn at(self, heap: Global, number: usize, word: &str) -> Fault<P>
        ensures { Placed self number word.now result }
    {
        let Unread::Of(problem) = self else {
            return Fault::NoMemory;
        };
        String::from_str(heap, word).map_or(
            Fault::NoMemory,
            |word| Fault::Line {
                number,
                problem,
                word,
            },
        )
    }
}

// What is wrong with a word, as a text says it. A trait: the words of a problem may stand around the word, so `Display`
// alone would not do.
pub trait Describe {
    // What was expected in place of the word, and what was found.
    fn describe<W: fmt::Write>(&self, word: &str, f: &mut fmt::Formatter<W>) -> fmt::Result;
}

// One line of help: where, what was expected, and what was found.
impl<P: Describe> fmt::Display for Fault<P> {
    fn fmt<W: fmt::Write>(&self, f: &mut fmt::Formatter<W>) -> fmt::Result {
        match self {
            Fault::Line {
                number,
                problem,
                word,
            } => {
                write!(f, "line {number}: expected ")?;
                problem.describe(word.as_str(), f)
            }
            Fault::NoMemory => f.write_str("out of memory"),
        }
    }
}
