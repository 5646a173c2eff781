//! Formulas of first-order logic over the declared objects.

use crate::{Ref, Term, Typed};
use p3_base::{Boxed, List};

/// A condition: what ADL allows in a precondition or a goal.
#[derive(Debug, Drop)]
pub enum Formula {
    /// A predicate at arguments.
    Atom {
        /// The predicate.
        pred: Ref,
        /// The arguments.
        args: List<Term>,
    },
    /// Both terms are the same object. They lie apart, so that a formula takes no more room than an atom.
    Equal(Boxed<Term>, Boxed<Term>),
    /// Every part holds.
    And(List<Formula>),
    /// Some part holds.
    Or(List<Formula>),
    /// The part does not hold.
    Not(Boxed<Formula>),
    /// The second part holds where the first does.
    Imply(Boxed<Formula>, Boxed<Formula>),
    /// The body holds for some objects of the types.
    Exists(List<Typed>, Boxed<Formula>),
    /// The body holds for all objects of the types.
    Forall(List<Typed>, Boxed<Formula>),
}
