//! The account of a plan: all that is found of it, by the steps that it has.
#![tactic(auto)]

mod account;
mod fitting;
mod misfit;
mod texts;

pub use account::account_of;
pub use texts::PlanTexts;
