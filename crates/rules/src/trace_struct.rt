// What every rule needs together.
use crate::places::Place;

// A trace: the host that it asks, and where it runs.
pub(crate) struct Trace<'a, H> {
    pub host: &'a H,
    pub place: Place,
}
