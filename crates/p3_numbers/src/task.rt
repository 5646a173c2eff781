//! A task over numbers.

use crate::{NumberedConstraint, NumberedEffect, NumberedGoal, Numbers};
use p3_base::List;
use p3_task::Numeral;

/// A predicate at objects.
#[derive(Debug, Drop)]
pub struct NumberedFact {
    /// The predicate.
    pub predicate: u32,
    /// The objects.
    pub objects: List<u32>,
}

/// The value of a function at objects.
#[derive(Debug, Drop)]
pub struct NumberedValue {
    /// The function.
    pub function: u32,
    /// The objects.
    pub objects: List<u32>,
    /// The value.
    pub number: Numeral,
}

/// An action: its parameters are the variables of the first slots.
#[derive(Debug, Drop)]
pub struct NumberedAction {
    /// The ranges of its parameters.
    pub ranges: List<u32>,
    /// Its precondition.
    pub pre: NumberedGoal,
    /// Its effect.
    pub effect: NumberedEffect,
}

/// A task with numbers in the place of names, and what the numbers stand for.
#[derive(Debug, Drop)]
pub struct NumberedTask {
    /// What the numbers stand for.
    pub numbers: Numbers,
    /// The actions, in order.
    pub actions: List<NumberedAction>,
    /// The constraints of the domain.
    pub domain_constraints: NumberedConstraint,
    /// The constraints of the problem.
    pub problem_constraints: NumberedConstraint,
    /// The goal.
    pub goal: NumberedGoal,
    /// The atoms that are true at the start, in order.
    pub start: List<NumberedFact>,
    /// The values that the initial state gives, in order, that of the total cost among them.
    pub values: List<NumberedValue>,
}
