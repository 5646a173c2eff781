//! Monitors: a few atoms that say, from step to step, whether a trajectory constraint holds of the
//! states that are visited.
#![tactic(auto)]

mod accepting;
mod beginning;
mod constraint_atoms;
mod copying;
mod forms;
mod guards;
mod laws;
mod making;
mod monitoring;
mod updates;

pub use forms::FormsByAtom;
pub use laws::{accepting_is_satisfaction, monitors_ride_together, untouched_monitors_ride};
pub use making::monitor;
pub use monitoring::Monitor;
