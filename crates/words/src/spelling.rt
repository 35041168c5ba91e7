// Words become paths of names.
ghost use Rattle.std.specs.Prelude.{◌≡◌, ◌<◌, map, IfOk};
ghost use Rattle.words.specs.declared.spelling.PathFault.TheVariants.{NoMemory};
ghost use Rattle.words.specs.Paths.{Named, AllNamed, PathRead, crowded};
ghost use Rattle.words.specs.Interned.{texts};
ghost use Rattle.words.specs.Spelled.{comma, Pieces};

use crate::interner::InternError;
use crate::interner_struct::Names;
use ids::{NameId, Path};
use std::alloc::{AllocError, AllocFailed, Global};

// Why a word spells no path. An enum of its own: `PathFault::EmptyName` says what happened, and as `Unread<..>` it would be
// `Unread::Of(EmptyName)`.
#[derive(Clone, Copy, PartialEq, Eq, Debug)]
pub enum PathFault {
    // a dot has no name on one of its sides
    EmptyName,
    // the word has this many names
    TooManyNames(usize),
    // the table of names has no room for one of them
    TooManyDistinctNames,
    NoMemory,
}

impl From<AllocError> for PathFault {
    ghost from_gives = { λ _ f. f ≡ NoMemory };

    fn from(_error: AllocError) -> PathFault {
        PathFault::NoMemory
    }
}

impl<T: Drop> From<AllocFailed<T>> for PathFault {
    ghost from_gives = { λ _ f. f ≡ NoMemory };

    fn from(_refused: AllocFailed<T>) -> PathFault {
        PathFault::NoMemory
    }
}

impl From<InternError> for PathFault {
    ghost from_gives = { λ e f. f ≡ crowded e };

    fn from(error: InternError) -> PathFault {
        match error {
            InternError::Full => PathFault::TooManyDistinctNames,
            InternError::NoMemory => PathFault::NoMemory,
        }
    }
}

// The pieces of a word, which an ASCII mark parts.
fn pieces<'a>(heap: Global, word: &'a str, mark: char) -> Result<Vec<&'a str>, AllocError>
    requires { mark < 128 }
    ensures { IfOk result (λ v. Pieces mark word.now (map (λ x. x.now) v.items)) }
{
    word.split(mark).collect(heap)
}

// The pieces of a word, which commas part.
pub fn comma_pieces<'a>(heap: Global, word: &'a str) -> Result<Vec<&'a str>, AllocError>
    ensures { IfOk result (λ v. Pieces comma word.now (map (λ x. x.now) v.items)) }
{
    pieces(heap, word, ',')
}

// The number of a name of a declaration.
fn name_number(names: &mut Names, text: &str) -> Result<NameId, PathFault>
    ensures { Named (texts names.old) text.now (texts names.new) result }
{
    if text.is_empty() {
        return Err(PathFault::EmptyName);
    }
    let number = names.intern(text)?;
    Ok(NameId(number))
}

// The numbers of names.
fn numbers(heap: Global, names: &mut Names, pieces: &[&str]) -> Result<Vec<NameId>, PathFault>
    ensures { AllNamed (texts names.old) (map (λ x. x.now) pieces.now) (texts names.new) result }
{
    let mut ids = Vec::new(heap);
    for piece in pieces {
        ids.push(name_number(names, piece)?)?;
    }
    Ok(ids)
}

// The path that a word spells.
pub fn read_path(heap: Global, names: &mut Names, word: &str) -> Result<Path, PathFault>
    ensures { PathRead (texts names.old) word.now (texts names.new) result }
{
    let pieces = pieces(heap, word, '.')?;
    let ids = numbers(heap, names, pieces.as_slice())?;
    Path::from_names(ids.as_slice()).map_err(|_| PathFault::TooManyNames(ids.len()))
}
