//! Lifting: from a plan of a plain task that was written to a plan of the task read.
#![tactic(auto)]

mod answers;
mod judging;
mod laws;
mod lifting;
mod names;
mod plain;
mod steps;

pub use answers::{Differ, LiftFail, Lifted, LiftedSteps};
pub use laws::{answers_exclude_each_other, faithful_tasks_never_mismatch};
pub use lifting::{lift, lift_steps};
