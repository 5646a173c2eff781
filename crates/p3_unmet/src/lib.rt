//! What a plan whose steps fit does not satisfy: a heading for its goal and for each constraint and
//! preference, with the states and the literals that show it.
#![tactic(auto)]

mod bindings;
mod draft;
mod drafting;
mod laws;
mod names;
mod sources;
mod stage;
mod step_scenes;
mod telling;
mod unmet;
mod untaken;

pub use bindings::bindings_of;
pub use laws::pairs_bind;
pub use sources::Sources;
pub use unmet::unmet_headings;
