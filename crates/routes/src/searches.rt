// A search through export-alls, from a module to all that its export-alls lead to.
ghost use Rattle.std.specs.Prelude.{◌≡◌, [], ◌∷◌, IfOk, OnOk};
ghost use Rattle.std.specs.List.{slice_get};
ghost use Rattle.routes.specs.Reach as spec;
ghost use Rattle.routes.specs.Routes.{start_of};

use crate::reached::{Reached, holds};
use host::Host;
use ids::ModuleId;
use resolution::{re_export_target, standing_module};
use std::alloc::{AllocError, Global};

// A host, and what was reached in it. The list is at once the queue, the set of the modules that were seen, and the tree
// of the ways to them. A module stands in it above the one that it was reached from, so each way back ends; a map from
// module to module would not show that. Each method that changes the search says that the host stays: a contract of a
// `&mut` says nothing of a field that it does not name. A struct of the list alone would be passed the host again at each
// call.
#[derive(Drop)]
pub(crate) struct Search<'a, H: Host> {
    pub(crate) host: &'a H,
    pub(crate) reached: Vec<Reached>,
}

impl<'a, H: Host> Search<'a, H> {
    // Begins at a module.
    pub(crate) fn begin(
        heap: Global,
        host: &'a H,
        start: ModuleId,
    ) -> Result<Search<'a, H>, AllocError>
        ensures { IfOk result (λ s. (s.host.now ≡ host.now) × (s.reached.items ≡ start_of start ∷ [])) }
    {
        let first = Reached {
            module: start,
            from: 0,
            place: 0,
        };
        let reached = vec![in heap; first]?;
        Ok(Search { host, reached })
    }

    // What was reached as that number, from 0.
    pub(crate) fn reached_at(&self, number: usize) -> Option<Reached>
        ensures { result ≡ slice_get self.now.reached.items number }
    {
        self.reached.get(number).copied()
    }

    // Adds a module that was reached from another, unless it is there or past the last.
    fn add(&mut self, new: Reached) -> Result<(), AllocError>
        ensures same_host { self.new.host.now ≡ self.old.host.now }
        ensures added { OnOk result (spec.Added (H.program self.old.host.now) new self.old.reached.items self.new.reached.items) }
    {
        if new.module.0 as usize >= self.host.modules()
            || holds(self.reached.as_slice(), new.module)
        {
            return Ok(());
        }
        self.reached.push(new)?;
        Ok(())
    }

    // Adds what the export-all at a place leads to.
    fn follow(&mut self, module: ModuleId, from: usize, place: usize) -> Result<(), AllocError>
        ensures same_host { self.new.host.now ≡ self.old.host.now }
        ensures spread { OnOk result (spec.Spread (H.program self.old.host.now) «module» from (λ i. i ≡ place) self.old.reached.items self.new.reached.items) }
    {
        let Some(target) = re_export_target(self.host, module, place) else {
            return Ok(());
        };
        self.add(Reached {
            module: standing_module(self.host, target),
            from,
            place,
        })
    }

    // Adds what all export-alls of a module lead to.
    pub(crate) fn spread(&mut self, module: ModuleId, from: usize) -> Result<(), AllocError>
        ensures same_host { self.new.host.now ≡ self.old.host.now }
        ensures spread { OnOk result (spec.Spread (H.program self.old.host.now) «module» from (λ i. Unit {0}) self.old.reached.items self.new.reached.items) }
    {
        let Some(info) = self.host.module(module) else {
            return Ok(());
        };
        // Written out here, and twice in offering: a closure that borrows and changes the search tells a contract nothing of
        // it.
        for place in 0..info.re_export_alls {
            self.follow(module, from, place)?;
        }
        Ok(())
    }
}
