//! Preconditions and goals with preferences.

use crate::{Formula, Ref, Typed};
use p3_base::{Boxed, List};

/// A preference over one state.
#[derive(Debug, Drop)]
pub struct Pref {
    /// The offset of the word `preference`.
    pub at: u32,
    /// The name, where it has one.
    pub name: Option<Ref>,
    /// What is preferred.
    pub body: Formula,
}

/// A precondition or a goal: formulas and preferences under `and` and `forall`. At such a place
/// `and` and `forall` are always `Both` and `Each`.
#[derive(Debug, Drop)]
pub enum PreGoal {
    /// A formula, which is hard.
    Plain(Formula),
    /// All of the parts.
    Both(List<PreGoal>),
    /// The body for all objects of the types.
    Each(List<Typed>, Boxed<PreGoal>),
    /// A preference, which is soft.
    Soft(Boxed<Pref>),
}
