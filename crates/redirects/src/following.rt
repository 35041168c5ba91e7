// Following redirects from module to module. Redirects and the number of modules are passed side by side, here and where
// they are refused: a struct of the two would only lengthen each clause.
ghost use Rattle.std.specs.Prelude.{◌≡◌};
ghost use Rattle.redirects.specs.Following as spec;

use crate::redirect::Redirect;
use ids::ModuleId;

// The most modules that are seen on one way, the start among them. `seen_limit` of specs/Following.antt is
// the same number.
const SEEN_LIMIT: usize = 10;

// The module that a module is sent on to by the first redirect from it that stays below `modules`.
fn next(redirects: &[Redirect], modules: usize, from: ModuleId) -> Option<ModuleId>
    ensures { result ≡ spec.next (spec.usable modules redirects.now) from }
{
    redirects
        .iter()
        .find(|redirect| redirect.from == from && (redirect.to.0 as usize) < modules)
        .map(|redirect| redirect.to)
}

// Where a module is sent in the end by the redirects that stay below `modules`. A module seen before is not entered
// again.
pub(crate) fn follow(redirects: &[Redirect], modules: usize, start: ModuleId) -> ModuleId
    ensures { result ≡ spec.followed (spec.usable modules redirects.now) start }
{
    // an array, of which `count` are filled: a `Vec` would ask for memory, which a host's answers may not, and the standard
    // library has no list of fixed size
    let mut seen = [start; SEEN_LIMIT];
    let mut end = start;
    for count in 1..SEEN_LIMIT {
        let Some(to) = next(redirects, modules, end) else {
            return end;
        };
        if seen[0..count].contains(&to) {
            return end;
        }
        seen[count] = to;
        end = to;
    }
    end
}
