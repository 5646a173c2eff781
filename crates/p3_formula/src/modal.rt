//! Ground trajectory constraints and preferences.

use crate::Form;
use p3_base::{List, Operator};

/// A modal operator over the visited states.
pub type GroundModal = Operator<Form>;

/// A preference of a step's precondition.
#[derive(Debug, Drop)]
pub struct GroundPref {
    /// The number of its name, where it has one.
    pub name: Option<u32>,
    /// What is preferred in the state before the step.
    pub body: Form,
}

/// An instance of a preference over the visited states, satisfied where every part is.
#[derive(Debug, Drop)]
pub struct GroundSoft {
    /// The number of its name, where it has one.
    pub name: Option<u32>,
    /// The operators.
    pub parts: List<GroundModal>,
}
