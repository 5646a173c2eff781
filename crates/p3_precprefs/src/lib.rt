//! Preferences of steps: a step becomes a copy for each choice of its preferences that are violated.
#![tactic(auto)]

mod choices;
mod copies;
mod questions;
mod weighing;

pub use copies::{StepCopy, split, split_under};
pub use questions::ask;
