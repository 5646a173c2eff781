//! What is printed of a task, over its trees and what they mean, which stand in `p3_task` and are
//! passed on here: a changed word of a printed line is no change of what the other crates stand on.
#![tactic(auto)]

mod command;
mod printed;

pub use command::CommandKind;
pub use p3_task::{
    Action, Amount, Binding, Constraint, Domain, Effect, Expression, Fact, Formula, Header, Init,
    Kind, Metric, Modal, Num, Numeral, Part, Plan, PreGoal, Pref, Problem, Ref, Step, Task, Term,
    Typed,
};
pub use printed::{followed_cases, printed_cases, refused_cases};
