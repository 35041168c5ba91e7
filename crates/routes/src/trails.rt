// From the end of a search back to its start.
ghost use Rattle.std.specs.Prelude.{◌<◌, length, IfOk};
ghost use Rattle.routes.specs.Routes as spec;

use crate::reached::Reached;
use crate::steps::Step;
use std::alloc::{AllocError, Global};

// The steps from the start to the module of a number.
pub(crate) fn trail(heap: Global, reached: &[Reached], end: usize) -> Result<Vec<Step>, AllocError>
    requires inside { end < length reached.now }
    requires down { spec.Down reached.now }
    ensures { IfOk result (λ v. spec.Trail reached.now end 0 v.items) }
{
    let mut steps = Vec::new(heap);
    let mut at = end;
    // By the links from number to number, and not along the list: no iterator goes so. The start has the number 0.
    while at > 0 {
        let one = reached[at];
        let step = Step {
            place: one.place,
            to: one.module,
        };
        steps.push(step)?;
        at = one.from;
    }
    steps.reverse();
    Ok(steps)
}
