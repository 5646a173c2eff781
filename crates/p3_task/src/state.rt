//! Ground atoms and bindings: the items of states and environments.

use p3_base::{List, Name};

/// A ground atom: a predicate at objects.
#[derive(Debug, Drop)]
pub struct Fact {
    /// The predicate.
    pub name: Name,
    /// The objects.
    pub args: List<Name>,
}

/// A variable and the object that it means.
#[derive(Debug, Drop)]
pub struct Binding {
    /// The variable.
    pub variable: Name,
    /// The object.
    pub object: Name,
}
