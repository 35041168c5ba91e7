// The modules that a search has come to.
ghost use Rattle.std.specs.Prelude.{◌≡◌};
ghost use Rattle.offering.specs.ExportedNames.{contains};
ghost use Rattle.routes.specs.Reach.{modules_in};

use ids::ModuleId;

// A module, and how the search came there: by the export-all at a place of another one, which is named by its
// number in the list of those that were reached. The start has the number 0 and names itself, so no Option is wanted.
#[derive(Clone, Copy)]
pub(crate) struct Reached {
    pub(crate) module: ModuleId,
    pub(crate) from: usize,
    pub(crate) place: usize,
}

// Whether a module was reached.
pub(crate) fn holds(reached: &[Reached], module: ModuleId) -> bool
    ensures { result ≡ contains (modules_in reached.now) «module» }
{
    reached.iter().any(|one| one.module == module)
}
