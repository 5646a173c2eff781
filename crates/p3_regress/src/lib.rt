//! Regression: what a form says after a step, as a form of the state before it.
#![tactic(auto)]

mod changed;
mod forms;
mod memory;
mod often;
mod parts;
mod readers;
mod regression;
mod sorted;
mod turning;

pub use readers::{PartReader, PartsByAtom, by_rising_atom, push_readers};
pub use regression::{Regressed, regress};
