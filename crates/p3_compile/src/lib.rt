//! The ground compiler: from a ground task and its weights to a plain target.
#![tactic(auto)]

mod begun;
mod bits;
mod changes;
mod compiling;
mod copying;
mod ending;
mod guarding;
mod laws;
mod monitor_readers;
mod monitoring;
mod names;
mod narrow;
mod parts;
mod stepping;
mod weighing;

pub use begun::BegunTarget;
pub use compiling::compile;
pub use laws::begun_targets_are_compiled;
pub use parts::{StepCopies, StepParts, TargetCopy};
