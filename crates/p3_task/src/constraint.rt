//! Trajectory constraints.

use crate::{Formula, Ref, Typed};
use p3_base::{Boxed, List, Operator};

/// A modal operator over the visited states.
pub type Modal = Operator<Formula>;

/// Constraints and preferences over the visited states.
#[derive(Debug, Drop)]
pub enum Constraint {
    /// All of the parts.
    Both(List<Constraint>),
    /// The body for all objects of the types.
    Each(List<Typed>, Boxed<Constraint>),
    /// A modal operator.
    Single(Modal),
    /// A preference.
    Soft {
        /// The offset of the word `preference`.
        at: u32,
        /// The name, where it has one.
        name: Option<Ref>,
        /// What is preferred.
        body: Boxed<Constraint>,
    },
}
