// By which export-alls a name comes to a module: a route from module to module, to one that exports the name.
#![tactic(auto)]

mod reached;
mod routes;
mod searches;
mod steps;
mod trails;

pub use routes::route;
pub use steps::Step;
