//! Ground tasks that stand for tasks: what that means, and the laws that a task and its ground task
//! have the same plans; the ground task of a checked task; and steps that can never fit.
#![tactic(auto)]

mod error;
mod expanded;
mod grounding;
mod laws;
mod parts;
mod planned;
mod rest;
mod step_parts;
mod task;
mod whole;

pub use error::GroundFail;
pub use expanded::{
    expanded_atoms_differ, expanded_constraints_have_own_atoms, expanded_constraints_stand,
    expanded_steps_stand, what_is_put_together_stands,
};
pub use grounding::{
    only_what_never_begins_is_left_out, what_may_begin_over_the_least_set_is_a_grounding,
};
pub use laws::{
    all_steps_are_the_whole_task, counts_and_costs_agree, names_are_below, numbers_are_one_to_one,
    plans_are_valid_by_number, plans_that_are_asked_agree, steps_that_never_fit_may_be_left_out,
    steps_that_were_done_are_asked, the_smallest_task_has_a_ground_task,
    wide_steps_take_as_many_actions, written_plans_lift_alike,
};
pub use planned::planned_steps_are_all;
pub use step_parts::{
    steps_are_at_choices, steps_cost_alike_by_number, steps_want_what_is_possible,
    what_may_not_begin_never_begins,
};
pub use task::{ground, ground_among};
