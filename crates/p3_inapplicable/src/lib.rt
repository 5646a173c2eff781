//! Why a step of a plan does not fit: the heading that an account of the plan has for it.
#![tactic(auto)]

mod argument;
mod heading;
mod laws;
mod reason;
mod value;
mod wording;

pub use heading::step_heading;
pub use laws::{what_is_wrong_has_a_fault, worked_faults};
