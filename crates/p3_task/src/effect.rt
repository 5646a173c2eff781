//! Effects and amounts.

use crate::{Formula, Ref, Term, Typed};
use p3_base::{Boxed, List};

/// A number: its value is `digits` divided by 10 to the power `places`.
#[derive(Clone, Copy, Debug, PartialEq, Eq)]
pub struct Numeral {
    /// The offset of its word.
    pub at: u32,
    /// How many bytes the word has.
    pub len: u32,
    /// The digits as one number.
    pub digits: u64,
    /// How many digits stand behind the point.
    pub places: u32,
}

/// By how much an action increases the total cost.
#[derive(Debug, Drop)]
pub enum Amount {
    /// A number.
    Number(Numeral),
    /// The value that the initial state gives to a static function.
    Value {
        /// The function.
        function: Ref,
        /// Its arguments.
        args: List<Term>,
    },
}

/// What a step changes.
#[derive(Debug, Drop)]
pub enum Effect {
    /// An atom becomes true.
    Add {
        /// The predicate.
        pred: Ref,
        /// The arguments.
        args: List<Term>,
    },
    /// An atom becomes false, where it is not added too.
    Del {
        /// The predicate.
        pred: Ref,
        /// The arguments.
        args: List<Term>,
    },
    /// All of the parts.
    All(List<Effect>),
    /// The body for all objects of the types.
    Each(List<Typed>, Boxed<Effect>),
    /// The body where the condition holds before the step.
    If(Formula, Boxed<Effect>),
    /// The total cost grows. The number is the offset of the word `total-cost`.
    Cost(u32, Amount),
}
