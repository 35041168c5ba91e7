// What follows from any host: where a specifier leads, which module stands for another, and what a module exports.
#![tactic(auto)]

mod targets;

pub use targets::{exports, re_export_target, standing_module, target};
