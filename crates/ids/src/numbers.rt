// Modules, symbols, packages and names are numbered apart, each from 0. A number of one kind
// never stands for another: each has a type of its own.

#[derive(Clone, Copy, PartialEq, Eq, PartialOrd, Ord, Debug)]
pub struct ModuleId(pub u32);

#[derive(Clone, Copy, PartialEq, Eq, PartialOrd, Ord, Debug)]
pub struct SymbolId(pub u32);

#[derive(Clone, Copy, PartialEq, Eq, PartialOrd, Ord, Debug)]
pub struct PackageId(pub u32);

#[derive(Clone, Copy, PartialEq, Eq, PartialOrd, Ord, Debug)]
pub struct NameId(pub u32);

impl NameId {
    pub const DEFAULT: NameId = NameId(0);

    pub const PROTOTYPE: NameId = NameId(1);
}
