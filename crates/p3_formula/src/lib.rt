//! The ground core: formulas over numbered atoms, their truth in a state of bits, and the ground
//! tasks and targets that are made of them.
#![tactic(auto)]

mod atoms;
mod bits;
mod constructors;
mod copy;
mod evaluation;
mod form;
mod gathered;
mod guards;
mod known;
mod laws;
mod literals;
mod modal;
mod node;
mod same;
mod settled;
mod simple;
mod simpler;
mod table;
mod target;
mod task;
mod trimmed;

pub use atoms::is_free_of;
pub use bits::Bits;
pub use copy::{change_copied, copied, effects_copied, fitted};
pub use evaluation::eval;
pub use form::{Change, Effects, Form};
pub use guards::{guarded, guarding, turned};
pub use known::Known;
pub use laws::{
    alike_changes_make_the_same_state, broken_constraints_stay_broken, copies_count_as_their_step,
    states_agree_after_changes,
};
pub use literals::Literal;
pub use modal::{GroundModal, GroundPref, GroundSoft};
pub use node::Node;
pub use same::same_form;
pub use settled::{gathered_both, simplified_under, simplify_under};
pub use simpler::{negate, push_spread, simplify, tidied};
pub use table::Table;
pub use target::{Target, TargetAction, Weights};
pub use task::{GroundStep, GroundTask};
pub use trimmed::effects_trimmed;
