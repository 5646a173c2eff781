//! Formulas with names as numbers and variables as slots.

use p3_base::{Boxed, List};

/// A term: a variable by its slot, or an object by its number.
#[derive(Clone, Copy, Debug, PartialEq, Eq)]
pub enum NumberedArgument {
    /// The variable at the place, counted from the outermost.
    Slot(u32),
    /// The object.
    Object(u32),
}

/// A formula over numbers.
#[derive(Debug, Drop)]
pub enum NumberedCondition {
    /// A predicate at arguments.
    Atom {
        /// The predicate.
        predicate: u32,
        /// The arguments.
        args: List<NumberedArgument>,
    },
    /// Both terms are the same object.
    Equal(NumberedArgument, NumberedArgument),
    /// Every part holds.
    And(List<NumberedCondition>),
    /// Some part holds.
    Or(List<NumberedCondition>),
    /// The part does not hold.
    Not(Boxed<NumberedCondition>),
    /// The second part holds where the first does.
    Imply(Boxed<NumberedCondition>, Boxed<NumberedCondition>),
    /// The body holds for some objects of the ranges.
    Exists(List<u32>, Boxed<NumberedCondition>),
    /// The body holds for all objects of the ranges.
    Forall(List<u32>, Boxed<NumberedCondition>),
}
