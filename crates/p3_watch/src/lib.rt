//! Following the text of a plan line by line: what each line comes to behind the steps done so far,
//! and lines that say it. After it is opened it takes no memory.
#![tactic(auto)]

mod blocks;
mod evaluated;
mod following;
mod lines;
mod run_report;
mod watch;

pub use following::{Followed, follow, line_numbers};
pub use run_report::{cost_of, metric_of, named_fault};
pub use watch::{Line, Watch};
