//! Accepted tasks: a checked task with the weights of its metric, of which nothing is refused; with
//! the ground task that stands for it, or that of the steps of a plan; and runs, which judge plans.
#![tactic(auto)]

mod accepted;
mod error;
mod fault;
mod grounded;
mod judge;
mod laws;
mod rising;
mod run;
mod steps;
mod text_judging;
mod whole;

pub use accepted::Accepted;
pub use error::WholeFail;
pub use fault::{FaultKind, PlanFault};
pub use grounded::Grounded;
pub use laws::{
    accepted_tasks_can_be_compiled, accepted_tasks_can_be_run, runs_tell_costs_and_values,
    runs_tell_the_first_fault,
};
pub use p3_run::{Stepped, Verdict};
pub use run::Run;
pub use steps::Steps;
pub use text_judging::{TextVerdict, judge_text};
pub use whole::Whole;
