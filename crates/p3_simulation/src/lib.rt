//! The theorem of compilation, apart from the code: a target that is made of gadgets, monitors that
//! ride together and an end phase is a compiled task. It has laws alone, which crates above cite.
#![tactic(auto)]

mod laws;

pub use laws::{assembled_targets_are_compiled, parts_make_a_compiled_task};
