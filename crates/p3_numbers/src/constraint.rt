//! Trajectory constraints over numbers.

use crate::NumberedCondition;
use p3_base::{Boxed, List, Operator};

/// A modal operator over the visited states.
pub type NumberedModal = Operator<NumberedCondition>;

/// Constraints and preferences over the visited states, over numbers.
#[derive(Debug, Drop)]
pub enum NumberedConstraint {
    /// All of the parts.
    Both(List<NumberedConstraint>),
    /// The body for all objects of the ranges.
    Each(List<u32>, Boxed<NumberedConstraint>),
    /// A modal operator.
    Single(NumberedModal),
    /// A preference.
    Soft {
        /// The offset of the word `preference`.
        at: u32,
        /// The number of its name, where it has one.
        name: Option<u32>,
        /// What is preferred.
        body: Boxed<NumberedConstraint>,
    },
}
