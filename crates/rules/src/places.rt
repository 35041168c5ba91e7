// Where a trace runs, and where specifiers lead from there.
ghost use Rattle.std.specs.Prelude.{◌≡◌, List};
ghost use Rattle.rules.specs.Destinations as spec;
ghost use Rattle.rules.specs.Facts as meaning;
ghost use Rattle.rules.specs.Lists as lists;

use crate::trace_struct::Trace;
use host::Host;
use ids::{ModuleId, NameId, PackageId};
use resolution::target;

// The package of the traced module, and the module that stands for it.
#[derive(Clone, Copy)]
pub struct Place {
    pub owner: Option<PackageId>,
    pub at: ModuleId,
}

impl Place {
    // Whether this is the traced package.
    fn is_own(self, package: PackageId) -> bool
        ensures { result ≡ spec.is_own self «package» }
    {
        self.owner == Some(package)
    }
}

// Where a file reference or an import type leads, if it leads anywhere.
#[derive(Clone, Copy)]
pub(crate) enum Destination {
    // a module of the traced package
    Own(ModuleId),
    // another package
    Other(PackageId),
}

impl<'a, H: Host> Trace<'a, H> {
    // Where a specifier leads.
    pub(crate) fn destination_of(&self, specifier: NameId) -> Option<Destination>
        ensures { (own : ModuleId → List meaning.Outcome) → lists.into (spec.trace_at (H.program self.now.host.now) self.now.place) specifier own ≡ spec.destined result own }
    {
        let target = target(self.host, self.place.at, specifier)?;
        let package = self.host.module(target)?.package?;
        Some(if self.place.is_own(package) {
            Destination::Own(target)
        } else {
            Destination::Other(package)
        })
    }
}
