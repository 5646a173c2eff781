//! Weights, and the plain tasks that are written.

use crate::{Bits, Effects, Form};
use p3_base::{Direction, List, Name};

/// What a metric comes to: the loss of no violation and no growth of the total cost, and the
/// weight of each.
#[derive(Debug, Drop)]
pub struct Weights {
    /// The weight of the total cost.
    pub total_cost: u64,
    /// The weight of each preference name, by its number.
    pub by_name: List<u64>,
    /// The loss of no violation and no growth of the total cost.
    pub base: i128,
    /// The metric's direction.
    pub direction: Direction,
}

/// An action of a target.
#[derive(Debug, Drop)]
pub struct TargetAction {
    /// Its name.
    pub name: Name,
    /// Its precondition.
    pub pre: Form,
    /// What it does.
    pub effects: Effects,
    /// What it costs.
    pub cost: u64,
}

/// A plain task without variables: its atoms are the predicates, by their place.
#[derive(Debug, Drop)]
pub struct Target {
    /// The predicates.
    pub predicates: List<Name>,
    /// The initial state.
    pub initial: Bits,
    /// The actions.
    pub actions: List<TargetAction>,
    /// The goal.
    pub goal: Form,
}
