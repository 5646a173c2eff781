//! What is expanded of a task.

use p3_base::List;
use p3_formula::{Form, GroundModal, GroundSoft, GroundStep};

/// What is expanded of a task: its steps that may begin, the hard part of its goal, and its hard and
/// soft constraints.
#[derive(Drop)]
pub(crate) struct ExpandedParts {
    /// How many atoms there are.
    pub(crate) atoms: usize,
    /// The steps.
    pub(crate) steps: List<GroundStep>,
    /// The hard part of the goal.
    pub(crate) goal: Form,
    /// The hard constraints.
    pub(crate) hard: List<GroundModal>,
    /// The instances of preferences over the visited states.
    pub(crate) soft: List<GroundSoft>,
}
