//! Samples of tasks: the texts of a task with n packages, and of a plan of it.
#![tactic(auto)]

mod piece;
mod sample;
mod sample_domain;
mod sample_plan;
mod sample_problem;

pub use sample::{Sample, generate};
