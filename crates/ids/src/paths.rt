// Paths: made from names, put one after another, compared name by name.
ghost use Rattle.std.specs.Prelude.{◌≡◌, ◌+◌, ◌<◌, [], ◌∷◌, ◌++◌, Decides};
ghost use Rattle.ids.specs.Names.{limit};
ghost use Rattle.ids.specs.Paths.{names_of, Makes, same_names, InOrder, InSomeOrder, path_order, path_partial_order, names_tie};
ghost use Rattle.std.specs.Cmp.{partial_order_from_own_ties};
ghost use Rattle.std.specs.Cmp.Rules.{comparing};
ghost use Rattle.std.proofs.Common.{rules};

use crate::numbers::NameId;
use crate::path_struct::{PATH_LIMIT, Path};
use std::cmp::Ordering;
use std::fmt;

// Why names make no path.
#[derive(Clone, Copy, PartialEq, Eq, Debug)]
pub enum PathError {
    // there is no name
    Empty,
    // there are more than PATH_LIMIT
    TooLong,
}

impl Path {
    // The path of one name.
    pub fn single(name: NameId) -> Path
        ensures { names_of result ≡ name ∷ [] }
    {
        let mut names = [NameId::DEFAULT; PATH_LIMIT];
        names[0] = name;
        Path { names, len: 1 }
    }

    // The path of these names.
    pub fn from_names(names: &[NameId]) -> Result<Path, PathError>
        ensures { Makes names.now result }
    {
        let Some((first, rest)) = names.split_first() else {
            return Err(PathError::Empty);
        };
        Path::single(*first).extended(rest)
    }

    // The names, first to last.
    pub fn names(&self) -> &[NameId]
        ensures { result.now ≡ names_of self.now }
    {
        &self.names[0..self.len]
    }

    // This path, and `rest` below it.
    pub fn then(&self, rest: &Path) -> Result<Path, PathError>
        ensures { Makes (names_of self.now ++ names_of rest.now) result }
    {
        self.extended(rest.names())
    }

    // The name `first`, and this path below it.
    pub fn under(&self, first: NameId) -> Result<Path, PathError>
        ensures { Makes (first ∷ names_of self.now) result }
    {
        Path::single(first).extended(self.names())
    }

    // The names of this path, and `more` after them. Name by name, so that each step keeps the rule of a path; a copy of the
    // whole slice would have to show it at once.
    fn extended(&self, more: &[NameId]) -> Result<Path, PathError>
        ensures { Makes (names_of self.now ++ more.now) result }
    {
        if more.len() > PATH_LIMIT - self.len {
            return Err(PathError::TooLong);
        }
        let mut path = *self;
        for name in more {
            path.push(*name);
        }
        Ok(path)
    }

    fn push(&mut self, name: NameId)
        requires { self.old.len < limit }
        ensures names { names_of self.new ≡ names_of self.old ++ name ∷ [] }
        ensures len { self.new.len ≡ self.old.len + 1 }
    {
        self.names[self.len] = name;
        self.len += 1;
    }
}

// Two paths are equal where their names are: they are then the same value.
// By hand: a derive would compare the padded arrays, and say nothing of the names.
impl PartialEq for Path {
    ghost eq = { same_names };

    ghost laws = { Prim.search (comparing, rules) };

    fn eq(&self, other: &Path) -> bool
        ensures computes { result ≡ same_names self.now other.now }
        ensures value { Decides result (self.now ≡ other.now) }
        ensures names { Decides result (names_of self.now ≡ names_of other.now) }
    {
        self.names() == other.names()
    }
}

impl Eq for Path {
    ghost laws = { Prim.search (comparing, rules) };
}

// By the number of the first name in which two paths differ; a path stands before those that go on from it.
// By hand: a derive could not promise this order of the names in its contract.
impl PartialOrd for Path {
    ghost partial_cmp = { path_partial_order };

    ghost laws = { partial_order_from_own_ties (Prim.search (comparing, rules)) names_tie };

    fn partial_cmp(&self, other: &Path) -> Option<Ordering>
        ensures computes { result ≡ path_partial_order self.now other.now }
        ensures order { InSomeOrder self.now other.now result }
    {
        Some(self.cmp(other))
    }
}

impl Ord for Path {
    ghost cmp = { path_order };

    ghost total = { Prim.search (comparing, rules) };

    ghost matches_partial_cmp = { Prim.search (comparing, rules) };

    ghost matches_eq = { names_tie };

    fn cmp(&self, other: &Path) -> Ordering
        ensures computes { result ≡ path_order self.now other.now }
        ensures order { InOrder self.now other.now result }
    {
        self.names().cmp(&other.names())
    }
}

// The numbers of the names, as of a slice, and not what stands behind the last one.
impl fmt::Debug for Path {
    fn fmt<W: fmt::Write>(&self, f: &mut fmt::Formatter<W>) -> fmt::Result {
        let names = self.names();
        write!(f, "{names:?}")
    }
}

#[cfg(test)]
mod tests {
    use super::*;
    use std::test::Fail;

    const NINE: [NameId; 9] = [
        NameId(2),
        NameId(3),
        NameId(4),
        NameId(5),
        NameId(6),
        NameId(7),
        NameId(8),
        NameId(9),
        NameId(10),
    ];

    #[test]
    fn from_one_to_eight_names(rt: HostRuntime) -> Result<(), Fail> {
        assert_eq!(rt; Path::from_names(&[]), Err(PathError::Empty));
        assert_eq!(rt; Path::from_names(&NINE), Err(PathError::TooLong));
        let eight = Path::from_names(&NINE[0..8])?;
        assert_eq!(rt; eight.names(), &NINE[0..8]);
        assert_eq!(rt; Path::from_names(&NINE[0..1])?, Path::single(NameId(2)));
        Ok(())
    }

    #[test]
    fn one_after_another(rt: HostRuntime) -> Result<(), Fail> {
        let front = Path::from_names(&NINE[0..5])?;
        let three = Path::from_names(&NINE[5..8])?;
        let four = Path::from_names(&NINE[5..9])?;
        assert_eq!(rt; front.then(&three)?.names(), &NINE[0..8]);
        assert_eq!(rt; front.then(&four), Err(PathError::TooLong));
        let seven = Path::from_names(&NINE[1..8])?;
        let eight = Path::from_names(&NINE[1..9])?;
        assert_eq!(rt; seven.under(NameId(2))?.names(), &NINE[0..8]);
        assert_eq!(rt; eight.under(NameId(2)), Err(PathError::TooLong));
        Ok(())
    }

    #[test]
    fn name_by_name(rt: HostRuntime) -> Result<(), Fail> {
        let short = Path::from_names(&[NameId(5)])?;
        let long = Path::from_names(&[NameId(5), NameId::DEFAULT])?;
        let late = Path::from_names(&[NameId(6)])?;
        assert!(rt; short != long);
        assert!(rt; short < long);
        assert!(rt; long < late);
        assert!(rt; short == Path::single(NameId(5)));
        Ok(())
    }
}
