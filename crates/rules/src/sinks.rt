// Where outcomes go.
ghost use Rattle.std.specs.Prelude.{◌≡◌, Bool, is_ok};
ghost use Rattle.rules.specs.Facts as meaning;
ghost use Rattle.rules.specs.Values.{outcome_of};

use crate::facts::Outcome;

// A sink takes no more.
#[derive(Clone, Copy)]
pub struct Stopped;

// A trait and no closure: `after` is a function of the sink, where a closure's step is a relation. By `after` each contract
// says what is in the sink afterwards.
pub trait Sink {
    // what an outcome makes of the sink, and whether it goes on
    ghost after: { Self → meaning.Outcome → Self × Bool };

    fn take(&mut self, outcome: Outcome) -> Result<(), Stopped>
        ensures { (self.new, is_ok result) ≡ after self.old (outcome_of outcome) };
}
