//! Ground formulas and the changes of a step.

use p3_base::{Boxed, List};

/// A condition on a state, over numbered atoms.
#[derive(Debug, Drop)]
pub enum Form {
    /// It always holds.
    True,
    /// It never holds.
    False,
    /// The atom is set.
    Atom(usize),
    /// The part does not hold.
    Not(Boxed<Form>),
    /// Every part holds.
    And(List<Form>),
    /// Some part holds.
    Or(List<Form>),
}

/// An atom is set or cleared where a condition holds.
#[derive(Debug, Drop)]
pub struct Change {
    /// The condition, in the state before.
    pub cond: Form,
    /// The atom.
    pub atom: usize,
    /// Whether the atom is set, else it is cleared.
    pub add: bool,
}

/// What a step does, all at once.
pub type Effects = List<Change>;
