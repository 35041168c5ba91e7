// The tables of texts that a text of records fills.
use words::Names;

#[derive(Drop)]
pub(crate) struct Texts {
    pub(crate) names: Names,
    pub(crate) modules: Names,
    pub(crate) packages: Names,
}
