//! Names where they stand, terms, and typed names.

use p3_base::{List, Name};

/// A name where it is used: the meaning looks at the name alone.
#[derive(Debug, Drop)]
pub struct Ref {
    /// The name.
    pub name: Name,
    /// The offset of its word.
    pub at: u32,
}

/// An argument.
#[derive(Debug, Drop)]
pub enum Term {
    /// A variable.
    Var(Ref),
    /// An object.
    Const(Ref),
}

/// A variable or an object with its types. The empty list stands for `object`; several types are
/// those of `either`.
#[derive(Debug, Drop)]
pub struct Typed {
    /// The variable or the object.
    pub name: Ref,
    /// Its types.
    pub types: List<Ref>,
}
