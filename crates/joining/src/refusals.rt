// Why a call on a table of records is refused. Each crate has just the refusals of its own calls: one enum for all would
// let each call answer what it never does.
ghost use Rattle.std.specs.Prelude.{◌≡◌};
ghost use Rattle.joining.specs.Refusals as spec;

#[derive(Clone, Copy, PartialEq, Eq, Debug)]
pub enum Refusal {
    // the table has no such module
    NoSuchModule = 1,
    // the rows that the request may need are not free
    NoFreeRow = 9,
}

impl Refusal {
    // The number by which refusals are told apart outside.
    pub fn number(self) -> u8
        ensures { result ≡ spec.number self }
    {
        self as u8
    }
}
