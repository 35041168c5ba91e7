// Lines become words, words become paths of names, and texts become numbers and back.
#![tactic(auto)]

mod faults;
mod interner;
mod interner_struct;
mod spelling;
mod splitting;

pub use faults::{Describe, Fault, Unread};
pub use interner::InternError;
pub use interner_struct::Names;
pub use spelling::{PathFault, comma_pieces, read_path};
pub use splitting::{content, first_word, words};
