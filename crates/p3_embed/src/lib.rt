//! Plans embedded: for a valid plan of a task, the one valid plan of a compiled target that lifts to it.
#![tactic(auto)]

mod actions;
mod counting;
mod embedding;
mod error;
mod fitting;
mod plans;
mod walking;

pub use embedding::Source;
pub use error::EmbedFail;
pub use plans::{Embedded, embed, embed_steps};
