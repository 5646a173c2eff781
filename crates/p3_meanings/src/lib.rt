//! What the names of a written task stand for: its steps, its atoms, those that watch operators, and
//! those of the chain in which preferences are settled, put line by line.
#![tactic(auto)]

mod atoms;
mod chain;
mod constraints;
mod error;
mod laws;
mod lines;
mod monitors;
mod names;
mod steps;
mod telling;
mod unnumbered;
mod watch;

pub use atoms::ground_atoms;
pub use error::NamesFail;
pub use laws::{names_are_numbered_as_written, worked_names};
pub use names::put_names;
