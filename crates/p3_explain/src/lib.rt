//! Explanations of plans: for each constraint and preference the visited states that show whether it
//! is satisfied.
#![tactic(auto)]

mod error;
mod explaining;
mod naming;
mod walking;

pub use error::ExplainFail;
pub use explaining::{Explained, Explanation, explain, explain_steps, explained_run};
pub use naming::name_of;
pub use p3_base::{Reason, Showing, Subject};
