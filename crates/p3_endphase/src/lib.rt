//! The end phase of a target: the actions that settle preferences behind a plan.
#![tactic(auto)]

mod phase;

pub use phase::{EndPhase, SoftEnd, end_phase, finishing, push_settling, settling};
