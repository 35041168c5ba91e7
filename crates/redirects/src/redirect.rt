// One module in the place of another.
use ids::ModuleId;

// What aims at `from`, or has its types there, is sent on to `to`.
#[derive(Clone, Copy)]
pub struct Redirect {
    pub from: ModuleId,
    pub to: ModuleId,
}
