//! Formulas whose parts are numbers.

use p3_base::List;

/// A formula whose parts are numbers of nodes.
#[derive(Debug, PartialEq, Eq, Hash, Drop)]
pub enum Node {
    /// It always holds.
    True,
    /// It never holds.
    False,
    /// The atom is set.
    Atom(usize),
    /// The part does not hold.
    Not(usize),
    /// Every part holds.
    And(List<usize>),
    /// Some part holds.
    Or(List<usize>),
}
