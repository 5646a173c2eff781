//! A text as an outline, and the first refusals that it shows before its grammar is looked at.
#![tactic(auto)]

mod balance;
mod build;
mod constructs;
mod error;
mod first;
mod numbers;
mod outlines;
mod view;

pub use error::ReadFail;
pub use first::first_shown;
pub use outlines::outline;
pub use view::{Outline, Parts, View};
