//! The trees of a PDDL3 task, and what they mean.
#![tactic(auto)]

mod constraint;
mod effect;
mod expression;
mod formula;
mod goal;
mod groundwork;
mod laws;
mod metric;
mod state;
mod task;
mod term;

pub use constraint::{Constraint, Modal};
pub use effect::{Amount, Effect, Numeral};
pub use expression::Expression;
pub use formula::Formula;
pub use goal::{PreGoal, Pref};
pub use groundwork::{
    all_uses_are_known, conjuncts_hold, constraints_are_their_operators,
    effects_are_their_literals, preferences_are_the_same_for_all_arguments, static_atoms_stay,
    steps_have_one_number,
};
pub use laws::{
    accepted_texts_are_not_refused, atoms_of_the_next_state, below_is_the_closure, counts_by_place,
    offsets_have_no_meaning, one_first_refusal, one_step_is_the_plan, one_task_at_most,
    optima_are_kept, pieces_are_lines, places_of_a_metric_are_fixed, valid_where_no_fault,
    well_formed_where_no_offence, what_is_shown_shows, worked_cases,
};
pub use metric::{Metric, Num};
pub use state::{Binding, Fact};
pub use task::{Action, Domain, Header, Init, Kind, Part, Plan, Problem, Step, Task};
pub use term::{Ref, Term, Typed};
