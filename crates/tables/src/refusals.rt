// Why tables are not loaded: of its own, so that loading can answer nothing else.
ghost use Rattle.std.specs.Prelude.{◌≡◌};
ghost use Rattle.tables.specs.Refusals as spec;

#[derive(Clone, Copy, PartialEq, Eq, Debug)]
pub enum Refusal {
    // the tables break a rule of the records
    BrokenRule = 1,
}

impl Refusal {
    // The number by which refusals are told apart outside.
    pub fn number(self) -> u8
        ensures { result ≡ spec.number self }
    {
        self as u8
    }
}
