// The walk through export-alls: which modules are met.
ghost use Rattle.std.specs.Prelude.{◌≡◌, ◌^◌, ◌<◌, length, replicate, MatchOption, ◌≢◌, slice_set};
ghost use Rattle.offering.specs.Marks as marks;
ghost use Rattle.offering.specs.Walks as spec;
ghost use Rattle.resolution.specs.Targets.{stands};

use crate::marks::{Mark, blank};
use host::Host;
use ids::ModuleId;
use resolution::{re_export_target, standing_module};

// A walk through the export-alls of a host, with a mark for each module. Each method that changes the walk says that the
// host stays: a contract of a `&mut` says nothing of a field that it does not name. A struct of the marks alone would be
// passed the host again at each call.
#[derive(Drop)]
pub(crate) struct Walk<'a, H: Host> {
    host: &'a H,
    marks: &'a mut [u8],
    ghost long: { length marks.now ≡ length (H.program host.now).modules },
}

impl<'a, H: Host> Walk<'a, H> {
    // Begins at a module: only that is met.
    pub(crate) fn begin(host: &'a H, sheet: &'a mut [u8], start: ModuleId) -> Walk<'a, H>
        requires { length sheet.old ≡ length (H.program host.now).modules }
        ensures same_host { result.host.now ≡ host.now }
        ensures begun { result.marks.now ≡ marks.met (replicate (length sheet.old) 0) start }
    {
        blank(sheet);
        let mut walk = Walk { host, marks: sheet };
        walk.meet(start);
        walk
    }

    // A module is met. If it was met before, or is past the last, nothing changes.
    fn meet(&mut self, module: ModuleId)
        ensures same_host { self.new.host.now ≡ self.old.host.now }
        ensures met { self.new.marks.now ≡ marks.met self.old.marks.now «module» }
    {
        // An index and no `get_mut`: of a slice that is written through `get_mut` a proof does not know the other elements.
        let place = module.0 as usize;
        if place < self.marks.len() && self.marks[place] == Mark::Unmet as u8 {
            self.marks[place] = Mark::Waiting as u8;
        }
    }

    // A module that was met and waits.
    pub(crate) fn waiting(&self) -> Option<ModuleId>
        ensures { MatchOption result ((x : ModuleId) → x.0 < length self.now.marks.now → marks.mark_of self.now.marks.now x ≢ 1) (λ x. (x.0 < length self.now.marks.now) × (marks.mark_of self.now.marks.now x ≡ 1)) }
    {
        let place = self
            .marks
            .iter()
            .position(|mark| *mark == Mark::Waiting as u8)?;
        Some(ModuleId(place as u32))
    }

    // A module that waited is done.
    fn finish(&mut self, module: ModuleId)
        requires { «module».0 < length self.old.marks.now }
        ensures same_host { self.new.host.now ≡ self.old.host.now }
        ensures done { self.new.marks.now ≡ slice_set self.old.marks.now «module».0 2 }
    {
        self.marks[module.0 as usize] = Mark::Done as u8;
    }

    // Follows the export-all of a module at a place: what it leads to is met.
    fn follow(&mut self, module: ModuleId, place: usize)
        ensures same_host { self.new.host.now ≡ self.old.host.now }
        ensures followed { spec.Followed (H.program self.old.host.now) «module» (λ i. i ≡ place) self.old.marks.now self.new.marks.now }
    {
        if let Some(target) = re_export_target(self.host, module, place) {
            self.meet(standing_module(self.host, target));
        }
    }

    // A module that waits is visited: it is done, and all its export-alls are followed.
    pub(crate) fn visit(&mut self, module: ModuleId)
        requires inside { «module».0 < length self.old.marks.now }
        requires waits { marks.mark_of self.old.marks.now «module» ≡ 1 }
        ensures same_host { self.new.host.now ≡ self.old.host.now }
        ensures visited { spec.Visited (H.program self.old.host.now) «module» self.old.marks.now self.new.marks.now }
    {
        self.finish(module);
        self.follow_all(module);
    }

    // Follows all export-alls of a module.
    fn follow_all(&mut self, module: ModuleId)
        ensures same_host { self.new.host.now ≡ self.old.host.now }
        ensures followed { spec.Followed (H.program self.old.host.now) «module» (λ i. Unit {0}) self.old.marks.now self.new.marks.now }
    {
        let Some(info) = self.host.module(module) else {
            return;
        };
        // Written out here, in offering.rt and in routes: a closure that borrows and changes the walk tells a contract nothing
        // of it.
        for place in 0..info.re_export_alls {
            self.follow(module, place);
        }
    }
}
