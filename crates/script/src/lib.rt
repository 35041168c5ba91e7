// The text of requests: names become numbers and back, and what cannot be read is told.
#![tactic(auto)]

mod faults;
mod reading;
mod rendering;
mod requests;
mod rows;
mod spelling;

pub use faults::{Fault, Problem};
pub use reading::{MODULE_LIMIT, NAME_LIMIT, read};
pub use rendering::{path_text, request_text};
pub use requests::{Line, Requests};
pub use words::{InternError, Names};
