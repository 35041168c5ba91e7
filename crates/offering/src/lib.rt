// Who offers a name: a walk through export-alls over any host, in lent marks.
#![tactic(auto)]

mod marks;
mod offering;
mod refusals;
mod walks;

pub use offering::{first_offer, offers};
pub use refusals::Refusal;
