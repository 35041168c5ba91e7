// What a trace deals with.
ghost use Rattle.std.specs.Prelude.{◌≡◌};
ghost use Rattle.rules.specs.Diagnostics as spec;

use host::SourceRange;
use ids::{ModuleId, PackageId, Path, SymbolId};
use joining::Request;

// As what a symbol is asked.
#[derive(Clone, Copy, PartialEq, Eq, Debug)]
pub enum Namespace {
    Value,
    Type,
}

// What a diagnostic is about.
#[derive(Clone, Copy, PartialEq, Eq, Debug)]
pub enum DiagnosticKind {
    // an entry module is missing
    ExportNotFound,
    // an entry module is untyped JavaScript or external
    UnsupportedJavaScriptEntrypoint,
    // an untyped JavaScript module is traced
    UnsupportedNestedJavaScript,
    // a private member is asked by another than its parent
    UnsupportedPrivateMemberReference,
    // a name below a symbol is not there
    NotFoundReference,
    // a name below a member of a prototype
    UnsupportedComplexReference,
    // a path below a symbol that cannot be found, or one that would have too many names
    UnresolvedReference,
}

impl DiagnosticKind {
    // The number of the kind, from 1 to 7. A match and no discriminants: a planted bug gives one kind the number of another,
    // and no two discriminants may be equal.
    pub fn number(self) -> u8
        ensures { result ≡ spec.number self }
    {
        match self {
            DiagnosticKind::ExportNotFound => 1,
            DiagnosticKind::UnsupportedJavaScriptEntrypoint => 2,
            DiagnosticKind::UnsupportedNestedJavaScript => 3,
            DiagnosticKind::UnsupportedPrivateMemberReference => 4,
            DiagnosticKind::NotFoundReference => 5,
            DiagnosticKind::UnsupportedComplexReference => 6,
            DiagnosticKind::UnresolvedReference => 7,
        }
    }
}

// What a trace handles. Symbols are those of the module that stands for the traced one.
#[derive(Clone, Copy)]
pub enum Fact {
    // the first symbol is asked by the second
    Ask(SymbolId, SymbolId, Namespace),
    // a path below the first symbol is asked by the second
    Below(SymbolId, SymbolId, Path),
}

#[derive(Clone, Copy)]
pub struct Diagnostic {
    pub kind: DiagnosticKind,
    pub symbol: SymbolId,
    pub referrer: SymbolId,
    pub path: Option<Path>,
}

// What is given or found on the way.
#[derive(Clone, Copy)]
pub enum Outcome {
    Reached(Fact),
    // a range is public
    Found(SourceRange),
    // a public range is that of an implementation with overloads
    Flagged(SourceRange),
    Reported(Diagnostic),
    // another module is asked
    Requested(ModuleId, Request),
    // another package is asked
    PackageRequested(PackageId),
}
