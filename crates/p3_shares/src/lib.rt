//! What the metric of a plan is made of, from the run that has done its steps: the loss at the start,
//! what each preference name and the total cost add to it, and what that comes to.
#![tactic(auto)]

mod cost;
mod loss;
mod metric;
mod names;

pub use metric::shares_of;
