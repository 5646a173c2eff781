//! All lines that the program prints, put into a sink piece by piece. Nothing here takes memory.
#![tactic(auto)]

mod explanation;
mod fault;
mod laws;
mod outside;
mod part;
mod piece;
mod placed;
mod quantity;
mod refusal;
mod report;
mod stack_sink;
#[cfg(test)]
mod tests;
mod words;

pub use explanation::{ExplainReport, NamedReason, put_verdict};
pub use fault::{Fault, Misfit, put_fault};
pub use laws::{faults_are_named, reports_are_lines};
pub use outside::{put_no_memory, put_read_fault, put_too_long, put_usage, put_write_fault};
pub use part::{NameCount, Part, put_part, put_parts};
pub use piece::{Piece, put_pieces};
pub use placed::PlacedRefusal;
pub use quantity::Quantity;
pub use refusal::{Rejection, put_placed_refusal, put_rejection};
pub use report::{
    CompileReport, EmbedReport, EvaluateReport, GenerateReport, LiftReport, Report, put_report,
};
pub use stack_sink::StackSink;
