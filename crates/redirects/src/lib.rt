// A layer over any host that sends modules on to others: redirects.
#![tactic(auto)]

mod following;
mod layer;
mod redirect;
mod refusals;

pub use layer::Redirected;
pub use redirect::Redirect;
pub use refusals::Refusal;
