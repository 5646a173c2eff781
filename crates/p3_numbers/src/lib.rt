//! The tables by which names are looked up; the trees of a task with numbers in the place of names
//! and slots in the place of variables, and what they mean; and costs in units.
#![tactic(auto)]

mod condition;
mod constraint;
mod digests;
mod effect;
mod goal;
mod keys;
mod laws;
mod names;
mod numbers;
mod scope;
mod task;
mod type_lists;
mod units;

pub use condition::{NumberedArgument, NumberedCondition};
pub use constraint::{NumberedConstraint, NumberedModal};
pub use digests::{
    item_key, kind_digest, list_key, listed_key, name_key, object_key, parameter_key, value_key,
};
pub use effect::{NumberedAmount, NumberedEffect};
pub use goal::{NumberedGoal, NumberedPreference};
pub use keys::{Digest, Key};
pub use laws::{
    numbered_arguments_mean_their_arguments, numbered_conditions_mean_their_formulas,
    numbered_constraints_mean_their_constraints, numbered_effects_mean_their_effects,
    numbered_goals_mean_their_goals, numbered_start_means_the_start, well_formed_tasks_are_known,
    worked_conditions,
};
pub use names::Names;
pub use numbers::Numbers;
pub use scope::Scope;
pub use task::{NumberedAction, NumberedFact, NumberedTask, NumberedValue};
pub use type_lists::TypeLists;
pub use units::units_at;
