//! Plans as texts: the steps of a text one after another, reading a plan, and writing one.
//! Giving the steps takes no memory.
#![tactic(auto)]

mod before;
mod draft;
mod error;
mod laws;
mod line;
mod offence;
mod read;
mod reader;
mod write;

pub use error::PlanFail;
pub use laws::{
    a_plan_where_no_offence, one_plan_at_most, slices_are_texts_of_steps, steps_before_offences,
};
pub use line::{LineStep, line_step};
pub use offence::first_plan_offence;
pub use read::read_plan;
pub use reader::{NextStep, PlanReader, PlanStep};
pub use write::{push_step, write_plan};
