//! The compiler as one call: words, files and a sink in, a status out.
#![tactic(auto)]

mod acceptance;
mod asking;
mod call;
mod embedding;
mod ending;
mod evaluation;
mod explaining;
mod files;
mod flattening;
mod following;
mod laws;
mod lifting;
mod product;
mod report_parts;
mod request;
mod sample_number;
mod sampling;
mod status;
mod store;
mod streaming;
mod sure;
mod table;
mod texts;
mod translation;

pub use call::{run, told};
pub use ending::Ending;
pub use evaluation::judged_task;
pub use laws::{
    compiled_tasks_are_faithful, translating_targets_are_faithful, wide_actions_have_wide_steps,
    written_targets_are_faithful_texts,
};
pub use p3_eval::{TextVerdict, judge_text};
pub use request::Input;
pub use store::read_all;
pub use sure::{are_held, run_sure};
pub use texts::Texts;
pub use translation::whole_task;
