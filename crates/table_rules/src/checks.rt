// Tests that many records share. Each list is tested in a function of its own, so that the check finds its proof alone.
ghost use Rattle.std.specs.Prelude.{◌≡◌, length, nat_le, nat_lt};
ghost use Rattle.host.specs.Rules as rules;

// The most entries of a list inside a module or a package. `list_limit` of the host's rules is the same number.
const LIST_LIMIT: usize = 4096;

// Whether a list is no longer than a list may be.
pub(crate) fn few<X>(xs: &[X]) -> bool
    ensures { result ≡ nat_le (length xs.now) rules.list_limit }
{
    xs.len() <= LIST_LIMIT
}

// Whether there is a record of this number among so many.
pub(crate) fn below(number: u32, count: usize) -> bool
    ensures { result ≡ nat_lt number count }
{
    (number as usize) < count
}
