// From a fact to what it gives, in order.
ghost use Rattle.std.specs.Prelude.{◌≡◌, length, is_ok};
ghost use Rattle.std.specs.List.{flat_map};
ghost use Rattle.host.specs.Lookups.{within, deps_of, decl_at};
ghost use Rattle.rules.specs.Feeding.{feed};
ghost use Rattle.rules.specs.Destinations.{trace_at};
ghost use Rattle.rules.specs.Lists as lists;
ghost use Rattle.rules.specs.Values.{wanted_of};

use crate::facts::{Fact, Namespace, Outcome};
use crate::places::Destination;
use crate::sinks::{Sink, Stopped};
use crate::trace_struct::Trace;
use host::{Host, SymbolNodeDep};
use ids::{NameId, Path, SymbolId};
use joining::Request;

// A symbol is asked in each of these namespaces, value before type. They are (value, type), the pair that `namespaces` of
// the host answers.
pub(crate) fn asks<S: Sink>(
    sink: &mut S,
    symbol: SymbolId,
    referrer: SymbolId,
    namespaces: (bool, bool),
) -> Result<(), Stopped>
    ensures { (sink.new, is_ok result) ≡ feed S.after sink.old (lists.asks symbol referrer namespaces) }
{
    if namespaces.0 {
        sink.take(Outcome::Reached(Fact::Ask(symbol, referrer, Namespace::Value)))?;
    }
    if namespaces.1 {
        sink.take(Outcome::Reached(Fact::Ask(symbol, referrer, Namespace::Type)))?;
    }
    Ok(())
}

// What an import type asks of its target: a path, or all of the namespace.
fn import_request(path: Option<Path>) -> Request
    ensures { wanted_of result ≡ lists.path_wanted path }
{
    path.map_or(Request::Full, Request::Path)
}

impl<'a, H: Host> Trace<'a, H> {
    // A file reference or an import type asks its target in the own package, and asks for another package only.
    fn ask_into<S: Sink>(
        &self,
        sink: &mut S,
        specifier: NameId,
        request: Request,
    ) -> Result<(), Stopped>
        ensures { (sink.new, is_ok result) ≡ feed S.after sink.old (lists.into (trace_at (H.program self.now.host.now) self.now.place) specifier (lists.asking (trace_at (H.program self.now.host.now) self.now.place) (wanted_of request))) }
    {
        match self.destination_of(specifier) {
            None => Ok(()),
            Some(Destination::Own(module)) => sink.take(Outcome::Requested(module, request)),
            Some(Destination::Other(package)) => sink.take(Outcome::PackageRequested(package)),
        }
    }

    // What a reference of a definition of a symbol gives.
    fn visit_dep<S: Sink>(
        &self,
        sink: &mut S,
        symbol: SymbolId,
        dep: SymbolNodeDep,
    ) -> Result<(), Stopped>
        ensures { (sink.new, is_ok result) ≡ feed S.after sink.old (lists.dep_gives (trace_at (H.program self.now.host.now) self.now.place) symbol dep) }
    {
        match dep {
            SymbolNodeDep::Id(Some(target), how) => asks(sink, target, symbol, how.namespaces()),
            SymbolNodeDep::QualifiedId(Some(target), path) => {
                sink.take(Outcome::Reached(Fact::Below(target, symbol, path)))
            }
            SymbolNodeDep::ImportType(specifier, path) => {
                self.ask_into(sink, specifier, import_request(path))
            }
            SymbolNodeDep::Id(None, _) | SymbolNodeDep::QualifiedId(None, _) => Ok(()),
        }
    }

    // What the references of a definition give, one after another. `count` is what the host told with the declaration; a
    // host lends no list, so each reference is asked by its place.
    fn visit_deps<S: Sink>(
        &self,
        sink: &mut S,
        symbol: SymbolId,
        decl: usize,
        count: usize,
    ) -> Result<(), Stopped>
        requires { count ≡ length (within deps_of (decl_at (H.program self.now.host.now) self.now.place.at symbol decl)) }
        ensures { (sink.new, is_ok result) ≡ feed S.after sink.old (flat_map (lists.dep_gives (trace_at (H.program self.now.host.now) self.now.place) symbol) (within deps_of (decl_at (H.program self.now.host.now) self.now.place.at symbol decl))) }
    {
        for index in 0..count {
            if let Some(dep) = self.host.dep(self.place.at, symbol, decl, index) {
                self.visit_dep(sink, symbol, dep)?;
            }
        }
        Ok(())
    }
}
