//! Why a plan is not valid or what it costs, and what the names of a written task stand for, as one
//! call: words, files and a sink in, a status out.
#![tactic(auto)]

mod asked;
mod asking;
mod call;
mod names;
mod plan;
mod question;
mod status;
mod usage;
mod words;

pub use call::why;
