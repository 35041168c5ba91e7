// The rules of one trace: what is reached from a module and what is asked of it.
#![tactic(auto)]

mod facts;
mod places;
mod sinks;
mod trace_struct;
mod visiting;

pub use facts::{Diagnostic, DiagnosticKind, Fact, Namespace, Outcome};
pub use places::Place;
pub use sinks::{Sink, Stopped};
