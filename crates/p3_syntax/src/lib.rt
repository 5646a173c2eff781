//! Reads the domain half and the problem half of a task.
#![tactic(auto)]

mod first;
mod halves;
mod tree;

pub use halves::{read_domain, read_problem};
pub use p3_outline::{Outline, Parts, ReadFail, View, outline};
