//! A task with numbers in the place of names, or the first offence where it is not well-formed:
//! each name is looked up once.
#![tactic(auto)]

mod actions;
mod atoms;
mod by_number;
mod conditions;
mod constraints;
mod declared_names;
mod effects;
mod first;
mod firsts;
mod fit;
mod fits;
mod gather;
mod given;
mod goals;
mod metric;
mod names_of_task;
mod notes;
mod numbers;
mod ranges;
mod repeated;
mod resolving;
mod spot;
mod starts;
mod tables;
mod terms;
mod walk;
mod whole;
mod worded;

pub use resolving::{Resolved, resolve};
