//! Numbered trees at objects, as ground forms, changes and constraints.
#![tactic(auto)]

mod atoms;
mod changed;
mod choices;
mod condition;
mod constraint;
mod effect;
mod form;
mod goal;
mod hashing;
mod instance;
mod junction;
mod laws;
mod preference;
mod start;
mod statics;
mod task;
mod work;

pub use atoms::Atoms;
pub use choices::{choice_count, object_at, objects_of, place_choice};
pub use effect::{changes, literal_count};
pub use goal::hard_form;
pub use laws::{
    changes_stand_for_the_effect, expanded_goals_mean_their_goals, the_start_is_told,
    well_formed_tasks_read_names, what_stands_is_bounded,
};
pub use preference::{preference_count, push_preferences};
pub use start::initial_bits;
pub use statics::Statics;
pub use task::{hard_constraints, soft_constraints};
pub use work::{Work, are_same, spell};
