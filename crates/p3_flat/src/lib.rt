//! Targets without conditional effects: an action whose changes have conditions becomes copies, one
//! for each truth of these conditions.
#![tactic(auto)]

mod atoms;
mod choices;
mod excluding;
mod flattening;
mod laws;
mod literals;
mod naming;
mod placing;
mod settling;
mod splitting;

pub use flattening::{FlatFail, flatten};
pub use laws::{
    compiled_targets_can_be_flattened, different_conditions_are_few,
    flattened_targets_can_be_written, flattened_targets_have_the_same_plans,
    flattened_targets_translate, worked_actions,
};
