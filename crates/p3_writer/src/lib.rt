//! The texts of a target as PDDL, which are those of the plain task that it is.
#![tactic(auto)]

mod atom_texts;
mod copy_text;
mod domain_text;
mod laws;
mod layout;

pub use copy_text::CopyParts;
pub use domain_text::{DomainText, write_domain};
pub use laws::{targets_are_their_tasks, unconditional_targets_are_unconditional_tasks};
pub use layout::{write_problem, write_problem_of};
