// A text of records, and its reader.
#![tactic(auto)]

mod collecting;
mod draft;
mod faults;
mod fields;
mod flagging;
mod forms;
mod items;
mod listing;
mod nodes;
mod parsing;
mod placing;
mod reading;
mod texts;

pub use faults::{Expected, Fault};
pub use listing::Listing;
pub use reading::read;
