//! A run of a ground task, step by step, which judges a plan.
#![tactic(auto)]

mod answers;
mod changing;
mod done;
mod finding;
mod groups;
mod modals;
mod pending;
mod preferring;
mod readers;
mod running;
mod stages;
mod tallies;

pub use answers::{Stepped, Verdict};
pub use finding::step_at;
pub use modals::{group_count, modal_at, modals_at};
pub use pending::Pending;
pub use readers::{OperatorReader, readers_of};
pub use running::GroundRun;
