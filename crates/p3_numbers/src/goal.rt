//! Preconditions and goals over numbers.

use crate::NumberedCondition;
use p3_base::{Boxed, List};

/// A preference over one state.
#[derive(Debug, Drop)]
pub struct NumberedPreference {
    /// The offset of the word `preference`.
    pub at: u32,
    /// The number of its name, where it has one.
    pub name: Option<u32>,
    /// What is preferred.
    pub body: NumberedCondition,
}

/// A precondition or a goal over numbers.
#[derive(Debug, Drop)]
pub enum NumberedGoal {
    /// A condition, which is hard.
    Plain(NumberedCondition),
    /// All of the parts.
    Both(List<NumberedGoal>),
    /// The body for all objects of the ranges.
    Each(List<u32>, Boxed<NumberedGoal>),
    /// A preference, which is soft.
    Soft(NumberedPreference),
}
