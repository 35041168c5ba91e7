// Joining requests to records: what of a request is new to a module's record, and the record after it.
#![tactic(auto)]

mod covering;
mod records;
mod records_struct;
mod refusals;
mod requests;
mod rows;

pub use covering::covers;
pub use records_struct::Records;
pub use refusals::Refusal;
pub use requests::Request;
pub use rows::{Extent, Row};
