// Covering of paths, name by name.
ghost use Rattle.std.specs.Prelude.{◌≡◌, Decides};
ghost use Rattle.joining.specs.Covering as spec;

use ids::NameId;

// Equal first names, and then the rest covers the rest: a recursion on both, as the rule says it, where
// `starts_with` would say the same.
fn rest_covers(front: &[NameId], path: &[NameId]) -> bool
    ensures { result ≡ spec.covers front.now path.now }
{
    match front {
        [] => true,
        [f, front_rest @ ..] => match path {
            [] => false,
            [g, path_rest @ ..] => f == g && rest_covers(front_rest, path_rest),
        },
    }
}

// The same, and what it means: between the recursion and the public call, so that a planted bug there is refused in the code.
fn begins_with(front: &[NameId], path: &[NameId]) -> bool
    ensures value { result ≡ spec.covers front.now path.now }
    ensures front { Decides result (spec.Front front.now path.now) }
{
    rest_covers(front, path)
}

// Whether `front` covers `path`: `path` is `front` and something after it, which may be nothing.
pub fn covers(front: &[NameId], path: &[NameId]) -> bool
    ensures value { result ≡ spec.covers front.now path.now }
    ensures front { Decides result (spec.Front front.now path.now) }
{
    begins_with(front, path)
}

// Whether a path begins with `default`.
pub(crate) fn of_default(path: &[NameId]) -> bool
    ensures { result ≡ spec.of_default path.now }
{
    path.first() == Some(&NameId::DEFAULT)
}
