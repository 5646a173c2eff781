//! A ground task without its steps.

use p3_base::List;
use p3_formula::{Bits, Form, GroundModal, GroundSoft, GroundStep};

/// A ground task but for its steps.
#[derive(Drop)]
pub(crate) struct Rest {
    pub(crate) atoms: usize,
    pub(crate) initial: Bits,
    pub(crate) initial_cost: u64,
    pub(crate) step_count: u32,
    pub(crate) goal: Form,
    pub(crate) hard: List<GroundModal>,
    pub(crate) soft: List<GroundSoft>,
    pub(crate) names: u32,
}

/// The steps of a ground task, and the rest of it.
#[derive(Drop)]
pub(crate) struct Taken {
    pub(crate) steps: List<GroundStep>,
    pub(crate) rest: Rest,
}
