//! What the numbers of a task stand for.

use p3_base::{List, Name};

/// What the numbers of a task stand for: each number is a place in one of the lists.
#[derive(Debug, Drop)]
pub struct Numbers {
    /// The predicates.
    pub predicates: List<Name>,
    /// The functions.
    pub functions: List<Name>,
    /// The objects.
    pub objects: List<Name>,
    /// The names of preferences.
    pub preferences: List<Name>,
    /// The lists of types with which variables are declared.
    pub types: List<List<Name>>,
    /// The objects that the variables with the types at the same place range over.
    pub ranges: List<List<u32>>,
}
