//! Which atoms may ever be set and which steps may ever fit, by the changes of ground steps alone.
#![tactic(auto)]

mod leading;
mod may;
mod model;
mod reach;
mod rounds;
mod rules;
mod waiting;

pub use reach::{Marks, reachable};
