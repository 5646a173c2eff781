//! Where a text leaves the grammar: the first token after which no text of a domain, or of a
//! problem, goes on.
#![tactic(auto)]

mod domain_sections;
mod heads;
mod rests;
mod sections;
mod state;
mod step;
mod walk;

pub use walk::FaultSearch;
