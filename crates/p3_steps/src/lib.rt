//! The steps of a numbered task that may begin, as ground steps.
#![tactic(auto)]

mod actions;
mod candidate_laws;
mod choices;
mod conjuncts;
mod cost_laws;
mod costs;
mod late;
mod links;
mod made;
mod places;
mod possible;

pub use actions::{steps, steps_among};
pub use candidate_laws::{candidates_have_possible_atoms, what_is_left_out_never_begins};
pub use cost_laws::effects_cost_alike_by_number;
pub use costs::EffectCosts;
