// Texts become numbers.
ghost use Rattle.std.specs.Prelude.{◌≡◌, [], length};
ghost use Rattle.words.specs.declared.interner.InternError.TheVariants.{NoMemory};
ghost use Rattle.words.specs.Interned.{texts, Found, Told, Interned, Started};
ghost use Rattle.words.specs.Texts.{text_at};

use crate::interner_struct::Names;
use std::alloc::{AllocError, AllocFailed, Global};

// Why a text gets no number. An enum of its own: `InternError::Full` says what happened, and as `Unread<..>` it would be
// `Unread::Of(Full)`.
#[derive(Clone, Copy, PartialEq, Eq, Debug)]
pub enum InternError {
    // the table has its most texts
    Full,
    NoMemory,
}

impl From<AllocError> for InternError {
    ghost from_gives = { λ _ e. e ≡ NoMemory };

    fn from(_error: AllocError) -> InternError {
        InternError::NoMemory
    }
}

impl<T: Drop> From<AllocFailed<T>> for InternError {
    ghost from_gives = { λ _ e. e ≡ NoMemory };

    fn from(_refused: AllocFailed<T>) -> InternError {
        InternError::NoMemory
    }
}

impl Names {
    // An empty table, for at most `limit` texts.
    pub fn new(heap: Global, limit: u32) -> Names
        ensures texts { texts result ≡ [] }
        ensures limit { result.limit ≡ limit }
    {
        Names {
            items: Vec::new(heap),
            limit,
        }
    }

    // A table of names of declarations: `default` has number 0, and `prototype` number 1.
    pub fn of_declarations(heap: Global, limit: u32) -> Result<Names, InternError>
        ensures { Started limit result }
    {
        let mut names = Names::new(heap, limit);
        names.intern("default")?;
        names.intern("prototype")?;
        Ok(names)
    }

    // How many texts there are.
    pub fn len(&self) -> u32
        ensures { result ≡ length (texts self.now) }
    {
        self.items.len() as u32
    }

    // The number of a text that is there. The search goes through the row: the contract and its proof speak of one list,
    // and a map beside it would have to be tied to that list by an invariant. A `for`: the answer that a chain wants names
    // its last step, so a slip there would be refused for the name alone. `inline`: within a caller the length of `text` is
    // looked at once, and not at each row.
    #[inline]
    pub fn find(&self, text: &str) -> Option<u32>
        ensures { Found (texts self.now) text.now result }
    {
        let items = self.items.as_slice();
        for (number, item) in items.iter().enumerate() {
            if item.as_str() == text {
                return Some(number as u32);
            }
        }
        None
    }

    // The text of a number.
    pub fn text(&self, number: u32) -> Option<&str>
        ensures { Told (texts self.now) number result }
    {
        self.items.get(number as usize).map(|item| item.as_str())
    }

    // The text of a number, and the empty text where the table lacks it.
    pub fn text_or_empty(&self, number: u32) -> &str
        ensures { result.now ≡ text_at (texts self.now) number }
    {
        self.text(number).unwrap_or("")
    }

    // The number of a text, which is put last if it is not there.
    pub fn intern(&mut self, text: &str) -> Result<u32, InternError>
        ensures { Interned self.old text.now self.new result }
    {
        if let Some(number) = self.find(text) {
            return Ok(number);
        }
        let number = self.len();
        if number == self.limit {
            return Err(InternError::Full);
        }
        let item = String::from_str(*self.items.allocator(), text)?;
        self.items.push(item)?;
        Ok(number)
    }
}

#[cfg(test)]
mod tests {
    use super::*;
    use std::test::Fail;

    #[test]
    fn lacking_numbers_have_no_text(rt: HostRuntime) -> Result<(), Fail> {
        let mut names = Names::new(rt.alloc(), 2);
        assert_eq!(rt; names.intern("a")?, 0);
        assert_eq!(rt; names.text_or_empty(0), "a");
        assert_eq!(rt; names.text_or_empty(1), "");
        Ok(())
    }
}
