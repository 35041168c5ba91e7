// The search for a route.
ghost use Rattle.std.specs.Prelude.{IfOk, MatchOption, ◌≢◌};
ghost use Rattle.offering.specs.Offers.{Offers};
ghost use Rattle.routes.specs.Routes as spec;

use crate::searches::Search;
use crate::steps::Step;
use crate::trails::trail;
use host::Host;
use ids::{ModuleId, NameId};
use resolution::exports;
use std::alloc::{AllocError, Global};

// Looks for a name that is not `default` from a module on, nearest modules first.
fn look_for<H: Host>(
    heap: Global,
    host: &H,
    start: ModuleId,
    name: NameId,
) -> Result<Option<Vec<Step>>, AllocError>
    requires { name.0 ≢ 0 }
    ensures { IfOk result (λ o. MatchOption o (Offers (H.program host.now) name start → ⊥) (λ v. spec.Route (H.program host.now) name start v.items)) }
{
    let mut search = Search::begin(heap, host, start)?;
    // Counted by hand: the list grows while it is gone through, and no iterator may hold it meanwhile.
    let mut turn = 0;
    while let Some(one) = search.reached_at(turn) {
        if exports(host, one.module, name) {
            return Ok(Some(trail(heap, search.reached.as_slice(), turn)?));
        }
        search.spread(one.module, turn)?;
        turn += 1;
    }
    Ok(None)
}

// No step where the module exports the name itself; `default` is not looked for further. Between the search and the public
// call, so that a planted bug there is refused in the code.
fn nearest<H: Host>(
    heap: Global,
    host: &H,
    start: ModuleId,
    name: NameId,
) -> Result<Option<Vec<Step>>, AllocError>
    ensures { IfOk result (λ o. MatchOption o (Offers (H.program host.now) name start → ⊥) (λ v. spec.Route (H.program host.now) name start v.items)) }
{
    if exports(host, start, name) {
        return Ok(Some(Vec::new(heap)));
    }
    if name == NameId::DEFAULT {
        return Ok(None);
    }
    look_for(heap, host, start, name)
}

// The steps by which a name comes to a module, through export-alls, from one that exports it, as few as may be. None
// where the module does not offer the name; no step where it exports the name itself.
pub fn route<H: Host>(
    heap: Global,
    host: &H,
    start: ModuleId,
    name: NameId,
) -> Result<Option<Vec<Step>>, AllocError>
    ensures { IfOk result (λ o. MatchOption o (Offers (H.program host.now) name start → ⊥) (λ v. spec.Route (H.program host.now) name start v.items)) }
{
    nearest(heap, host, start, name)
}
