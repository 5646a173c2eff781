//! Effects and amounts over numbers.

use crate::{NumberedArgument, NumberedCondition};
use p3_base::{Boxed, List};
use p3_task::Numeral;

/// By how much an action increases the total cost.
#[derive(Debug, Drop)]
pub enum NumberedAmount {
    /// A number.
    Number(Numeral),
    /// The value that the initial state gives to a static function.
    Value {
        /// The function.
        function: u32,
        /// Its arguments.
        args: List<NumberedArgument>,
    },
}

/// What a step changes, over numbers.
#[derive(Debug, Drop)]
pub enum NumberedEffect {
    /// An atom becomes true.
    Add {
        /// The predicate.
        predicate: u32,
        /// The arguments.
        args: List<NumberedArgument>,
    },
    /// An atom becomes false, where it is not added too.
    Del {
        /// The predicate.
        predicate: u32,
        /// The arguments.
        args: List<NumberedArgument>,
    },
    /// All of the parts.
    All(List<NumberedEffect>),
    /// The body for all objects of the ranges.
    Each(List<u32>, Boxed<NumberedEffect>),
    /// The body where the condition holds before the step.
    If(NumberedCondition, Boxed<NumberedEffect>),
    /// The total cost grows.
    Cost(NumberedAmount),
}
