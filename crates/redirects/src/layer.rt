// A host whose answers are those of the host below, but that dependencies and types are followed through redirects.
ghost use Rattle.std.specs.Prelude.{◌≡◌, length, Some, None, MatchResult, OnOk};
ghost use Rattle.std.specs.Option.{option_map};
ghost use Rattle.redirects.specs.Ends.{Ends};
ghost use Rattle.redirects.specs.Examples.{Examples};
ghost use Rattle.redirects.specs.Following as following;
ghost use Rattle.redirects.specs.Layers as spec;
ghost use Rattle.redirects.specs.Refusals as refusals;
ghost use Rattle.redirects.specs.Kept.{redirected_valid};

use crate::following::follow;
use crate::redirect::Redirect;
use crate::refusals::{Refusal, admit};
use host::{
    Dependency, Export, Host, ModuleInfo, PackageInfo, ReExportAll, SymbolDecl, SymbolInfo,
    SymbolNodeDep,
};
use ids::{ModuleId, PackageId, SymbolId};

// A layer over a host. That no redirect goes past the last module cannot be a rule of the struct, since such a rule
// cannot name the program of a host: `new` sees to it, and what goes past is passed over in any case, so that every
// value of this type tells a program that keeps the rules.
#[derive(Drop)]
pub struct Redirected<H> {
    host: H,
    redirects: Vec<Redirect>,
}

impl<H: Host> Redirected<H> {
    // The layer of these redirects over a host. Refused, the host is given back.
    pub fn new(host: H, redirects: Vec<Redirect>) -> Result<Redirected<H>, (Refusal, H)>
        ensures parts { MatchResult result (λ t. (t.host ≡ host) × (t.redirects ≡ redirects)) (λ e. e.1 ≡ host) }
        ensures why { MatchResult result (λ _. refusals.Fit (length (H.program host).modules) redirects.items) (λ e. refusals.Says (length (H.program host).modules) redirects.items e.0) }
        ensures number { MatchResult result (λ _. refusals.refused_with (length (H.program host).modules) redirects.items ≡ None) (λ e. refusals.refused_with (length (H.program host).modules) redirects.items ≡ Some (refusals.number e.0)) }
        ensures alone { refusals.OneAlone (length (H.program host).modules) redirects.items }
        ensures none_passed_over { OnOk result (following.usable (length (H.program host).modules) redirects.items ≡ redirects.items) }
        ensures examples { Examples }
    {
        match admit(&redirects, host.modules()) {
            Ok(()) => Ok(Redirected { host, redirects }),
            Err(refusal) => Err((refusal, host)),
        }
    }

    // Where a module is sent in the end: redirects are followed until none starts there, the next module was seen
    // before, or ten modules are seen.
    pub fn end(&self, start: ModuleId) -> ModuleId
        ensures value { result ≡ spec.sends self.now.redirects.items (H.program self.now.host) start }
        ensures ends { Ends (following.usable (length (H.program self.now.host).modules) self.now.redirects.items) start result }
    {
        follow(&self.redirects, self.host.modules(), start)
    }

    // The same of a module that may not be there.
    fn end_of(&self, start: Option<ModuleId>) -> Option<ModuleId>
        ensures { result ≡ option_map (spec.sends self.now.redirects.items (H.program self.now.host)) start }
    {
        start.map(|module| self.end(module))
    }
}

// Only what a dependency aims at and where a module has its types is followed.
impl<H: Host> Host for Redirected<H> {
    ghost program = { λ t. spec.redirected t.redirects.items (H.Host.program t.host) };

    ghost kept = { λ h. redirected_valid h.redirects.items (H.Host.program h.host) (H.Host.kept h.host) };

    fn names(&self) -> usize {
        self.host.names()
    }

    fn packages(&self) -> usize {
        self.host.packages()
    }

    fn modules(&self) -> usize {
        self.host.modules()
    }

    fn package(&self, package: PackageId) -> Option<PackageInfo> {
        self.host.package(package)
    }

    fn entry(&self, package: PackageId, place: usize) -> Option<ModuleId> {
        self.host.entry(package, place)
    }

    fn module(&self, module: ModuleId) -> Option<ModuleInfo> {
        let mut info = self.host.module(module)?;
        info.types = self.end_of(info.types);
        Some(info)
    }

    fn dependency(&self, module: ModuleId, place: usize) -> Option<Dependency> {
        let mut dependency = self.host.dependency(module, place)?;
        dependency.target = self.end_of(dependency.target);
        Some(dependency)
    }

    fn re_export_all(&self, module: ModuleId, place: usize) -> Option<ReExportAll> {
        self.host.re_export_all(module, place)
    }

    fn symbol(&self, module: ModuleId, symbol: SymbolId) -> Option<SymbolInfo> {
        self.host.symbol(module, symbol)
    }

    fn export(&self, module: ModuleId, symbol: SymbolId, place: usize) -> Option<Export> {
        self.host.export(module, symbol, place)
    }

    fn member(&self, module: ModuleId, symbol: SymbolId, place: usize) -> Option<SymbolId> {
        self.host.member(module, symbol, place)
    }

    fn decl(&self, module: ModuleId, symbol: SymbolId, place: usize) -> Option<SymbolDecl> {
        self.host.decl(module, symbol, place)
    }

    fn dep(
        &self,
        module: ModuleId,
        symbol: SymbolId,
        decl: usize,
        place: usize,
    ) -> Option<SymbolNodeDep> {
        self.host.dep(module, symbol, decl, place)
    }
}
