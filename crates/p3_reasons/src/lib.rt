//! Why a condition holds in a state or does not: ground literals that decide it there.
#![tactic(auto)]

mod condition;
mod decision;
mod effect;
mod evidence;
mod facts;
mod gathered;
mod goal;
mod laws;
mod state_facts;
mod visited;

pub use condition::decide_condition;
pub use decision::{Decision, Literal};
pub use effect::effect_literals;
pub use evidence::{Evidence, Operand, evidence_in};
pub use facts::Facts;
pub use goal::decide_hard_part;
pub use laws::{
    deciding_literals_decide, facts_are_told, what_is_shown_is_evident, worked_decisions,
};
pub use state_facts::StateFacts;
pub use visited::PlacedStep;
