//! Literals: atoms that are set, or that are not.

/// An atom, and whether it is set.
#[derive(Clone, Copy, Debug, Drop)]
pub struct Literal {
    /// The atom.
    pub atom: usize,
    /// Whether it is set.
    pub holds: bool,
}
