//! The type hierarchy of a task: which types are below which, and which objects are of which.
#![tactic(auto)]

mod declarations;
mod kinds;
mod objects;
mod order;
mod reaches;
mod span;
mod walk;
mod words;

pub use declarations::{Declaration, Declarations};
pub use kinds::{Below, Kinds};
pub use objects::Objects;
