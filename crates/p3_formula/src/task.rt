//! Ground tasks.

use crate::{Bits, Effects, Form, GroundModal, GroundPref, GroundSoft};
use p3_base::List;

/// A step: an action at arguments.
#[derive(Debug, Drop)]
pub struct GroundStep {
    /// Its number among all steps.
    pub number: u32,
    /// The hard part of its precondition.
    pub pre: Form,
    /// The preferences of its precondition.
    pub prefs: List<GroundPref>,
    /// What it does.
    pub effects: Effects,
    /// What it costs, where each value that it reads is given.
    pub cost: Option<u128>,
}

/// A task without variables. Steps stand by rising number; a step that is left out has a hard
/// precondition that is false in every state that fitting steps reach.
#[derive(Debug, Drop)]
pub struct GroundTask {
    /// How many atoms there are.
    pub atoms: usize,
    /// The initial state.
    pub initial: Bits,
    /// The initial total cost.
    pub initial_cost: u64,
    /// How many steps there are, those left out too.
    pub step_count: u32,
    /// The steps.
    pub steps: List<GroundStep>,
    /// The hard part of the goal.
    pub goal: Form,
    /// The hard constraints.
    pub hard: List<GroundModal>,
    /// The instances of preferences over the visited states.
    pub soft: List<GroundSoft>,
    /// How many preference names there are.
    pub names: u32,
}
