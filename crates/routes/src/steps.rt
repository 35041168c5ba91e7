// The steps of a route.
use ids::ModuleId;

// The export-all at a place leads to a module, or to one for which this module stands.
#[derive(Clone, Copy)]
pub struct Step {
    pub place: usize,
    pub to: ModuleId,
}
