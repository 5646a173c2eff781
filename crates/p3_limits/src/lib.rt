//! The limits on tasks: how many steps, how large their parts, how many instances of preferences, how
//! dear numbers and actions, how wide actions may be; and the first refusal of what passes one.
#![tactic(auto)]

mod actions;
mod choices;
mod dear;
mod goals;
mod increases;
mod large;
mod many;
mod measure;
mod preferences;
mod refusal;
mod refused_words;
mod sizes;
mod step_counts;

pub use actions::bounds;
pub use choices::cut_units;
pub use dear::{dear_amount, dear_value};
pub use refusal::size_refusal;
pub use refused_words::{domain_role, name_len, problem_role, refusal_at};
