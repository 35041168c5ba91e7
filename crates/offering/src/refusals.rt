// Why a search is refused: of its own, so that a search can answer nothing else.
ghost use Rattle.std.specs.Prelude.{◌≡◌};
ghost use Rattle.offering.specs.Refusals as spec;

#[derive(Clone, Copy, PartialEq, Eq, Debug)]
pub enum Refusal {
    // the mark sheet is shorter than the modules
    ShortSheet = 7,
}

impl Refusal {
    // The number by which refusals are told apart outside.
    pub fn number(self) -> u8
        ensures { result ≡ spec.number self }
    {
        self as u8
    }
}
