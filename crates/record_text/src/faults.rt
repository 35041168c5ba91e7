// What cannot be read, and where.
use ids::PATH_LIMIT;
use std::fmt;
use words::Describe;

// What a line should have had.
#[derive(Clone, Copy, PartialEq, Eq, Debug)]
pub enum Expected {
    Keyword,
    // so many words after the keyword, where there are others
    Words { wanted: usize, found: usize },
    // a name, or a name and `exports`, after `package`
    PackageWords,
    // a package, or a module, that no line above has
    NewPackage,
    NewModule,
    // a module that a line of the text has
    Module,
    ModuleOrNone,
    PackageOrNone,
    SymbolNumber,
    SymbolNumberOrNone,
    Offset,
    ModuleKind,
    NodeKind,
    Flags,
    Path,
    // value, type or both
    Namespace,
    // what the line would add to: a package with an export table, a module, a symbol, a definition
    ExportTableAbove,
    ModuleAbove,
    SymbolAbove,
    DefinitionAbove,
}

// Why a text is not read: what the first line that cannot be read should have had, and the word that it has, or that
// memory ran out.
pub type Fault = words::Fault<Expected>;

// Why the words of a line say nothing, with the place of the word that it fails at.
pub(crate) type Unread = words::Unread<(Expected, usize)>;

// Why what a line says has no place.
pub(crate) type Unplaced = words::Unread<Expected>;

impl fmt::Display for Expected {
    fn fmt<W: fmt::Write>(&self, f: &mut fmt::Formatter<W>) -> fmt::Result {
        match self {
            Expected::Keyword => f.write_str("a keyword"),
            Expected::Words { wanted, found } => {
                let s = if *wanted == 1 { "" } else { "s" };
                write!(f, "{wanted} word{s} after the keyword and not {found}")
            }
            Expected::PackageWords => f.write_str("a name, or a name and exports"),
            Expected::NewPackage => f.write_str("a package that no line above has"),
            Expected::NewModule => f.write_str("a module that no line above has"),
            Expected::Module => f.write_str("a module of this text"),
            Expected::ModuleOrNone => f.write_str("a module of this text or -"),
            Expected::PackageOrNone => f.write_str("a package of this text or -"),
            Expected::SymbolNumber => f.write_str("a symbol number"),
            Expected::SymbolNumberOrNone => f.write_str("a symbol number or -"),
            Expected::Offset => f.write_str("a number below 2^32"),
            Expected::ModuleKind => f.write_str("missing, typed, untyped, json, wasm or external"),
            Expected::NodeKind => f.write_str("a node kind"),
            Expected::Flags => f.write_str("flags or -"),
            Expected::Path => write!(f, "a path of 1 to {PATH_LIMIT} names"),
            Expected::Namespace => f.write_str("value, type or both"),
            Expected::ExportTableAbove => f.write_str("a package with an export table above"),
            Expected::ModuleAbove => f.write_str("a module above"),
            Expected::SymbolAbove => f.write_str("a symbol above"),
            Expected::DefinitionAbove => f.write_str("a definition above"),
        }
    }
}

// What was expected in place of a word, and the word.
impl Describe for Expected {
    fn describe<W: fmt::Write>(&self, word: &str, f: &mut fmt::Formatter<W>) -> fmt::Result {
        write!(f, "{self}, found \"{word}\"")
    }
}
