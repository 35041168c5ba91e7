// Whether the elements of a list are told apart by a number.
ghost use Rattle.std.specs.Prelude.{◌≡◌, ℕ, map};
ghost use Rattle.host.specs.Lists.{Gives};
ghost use Rattle.host.specs.Tests as tests;

// Whether one of `xs` goes by this number, which `key` gives.
fn among<T, F: Fn(&T) -> u32>(number: u32, xs: &[T], key: &F) -> bool
    requires { F.IsAlwaysCallable key.now }
    ensures { (of : T → ℕ) → Gives F.Fn key.now of → result ≡ tests.among number (map of xs.now) }
{
    xs.iter().any(|x| number == key(x))
}

// Whether no two of `xs` go by the same number, which `key` gives. It asks for no memory. From front to rest, as the
// definition goes: each element is looked for among those behind it.
pub fn distinct<T, F: Fn(&T) -> u32>(xs: &[T], key: F) -> bool
    requires { F.IsAlwaysCallable key }
    ensures { (of : T → ℕ) → Gives F.Fn key of → result ≡ tests.distinct (map of xs.now) }
{
    let mut rest = xs;
    while let Some((first, others)) = rest.split_first() {
        if among(key(first), others, &key) {
            return false;
        }
        rest = others;
    }
    true
}

#[cfg(test)]
mod tests {
    use super::*;

    #[test]
    fn no_two_alike(rt: HostRuntime) {
        assert!(rt; distinct(&[3u32, 1, 2], |n| *n));
        assert!(rt; !distinct(&[3u32, 1, 3], |n| *n));
        assert!(rt; !distinct(&[1u32, 2, 2], |n| *n));
        // 13 and 23 go by the same number
        assert!(rt; !distinct(&[13u32, 5, 23], |n| *n % 10));
    }

    #[test]
    fn few_are_distinct(rt: HostRuntime) {
        let none: [u32; 0] = [];
        assert!(rt; distinct(&none, |n| *n));
        assert!(rt; distinct(&[7u32], |_| 0));
    }
}
