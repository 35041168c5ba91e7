// Which redirects a layer may have, and why others are refused: refusals of its own, so that a layer can answer nothing
// else.
ghost use Rattle.std.specs.Prelude.{◌≡◌, MatchResult};
ghost use Rattle.std.specs.List.{list_all};
ghost use Rattle.host.specs.Tests.{among, distinct};
ghost use Rattle.redirects.specs.Refusals as spec;

use crate::redirect::Redirect;
use ids::ModuleId;

// The most redirects of a layer. `redirect_limit` of specs/Refusals.antt is the same number.
const REDIRECT_LIMIT: usize = 256;

#[derive(Clone, Copy, PartialEq, Eq, Debug)]
pub enum Refusal {
    // a redirect starts or ends past the last module
    PastTheLast,
    // two redirects start at one module
    TwoStartAlike,
    // there are more than REDIRECT_LIMIT
    TooMany,
}

impl Refusal {
    // The number by which refusals are told apart outside.
    pub fn number(self) -> u8
        ensures { result ≡ spec.number self }
    {
        // two refusals have one number, which discriminants may not
        match self {
            Refusal::PastTheLast => 1,
            Refusal::TwoStartAlike => 1,
            Refusal::TooMany => 9,
        }
    }
}

// Whether a layer over so many modules may have these redirects, or why not.
pub(crate) fn admit(redirects: &[Redirect], modules: usize) -> Result<(), Refusal>
    ensures { MatchResult result (λ _. spec.refusal modules redirects.now ≡ None) (λ e. spec.refusal modules redirects.now ≡ Some e) }
{
    if !all_inside(redirects, modules) {
        return Err(Refusal::PastTheLast);
    }
    if !all_apart(redirects) {
        return Err(Refusal::TwoStartAlike);
    }
    if redirects.len() > REDIRECT_LIMIT {
        return Err(Refusal::TooMany);
    }
    Ok(())
}

// Whether each redirect starts and ends at one of so many modules.
fn all_inside(redirects: &[Redirect], modules: usize) -> bool
    ensures { result ≡ list_all (spec.inside modules) redirects.now }
{
    redirects.iter().all(|redirect| (redirect.from.0 as usize) < modules
        && (redirect.to.0 as usize) < modules)
}

// Whether no two redirects start alike. As in `host::distinct`, each is looked for among those behind it; here the two
// sides are named apart, and a slip between them can be told.
fn all_apart(redirects: &[Redirect]) -> bool
    ensures { result ≡ distinct (spec.starts redirects.now) }
{
    let mut rest = redirects;
    while let Some((first, others)) = rest.split_first() {
        if one_starts_at(others, first.from) {
            return false;
        }
        rest = others;
    }
    true
}

// Whether a redirect starts at a module.
fn one_starts_at(redirects: &[Redirect], from: ModuleId) -> bool
    ensures { result ≡ among from.0 (spec.starts redirects.now) }
{
    redirects.iter().any(|redirect| from == redirect.from)
}
