//! What every part of the compiler stands on: lists and names as contracts see them, places in a
//! text, refusals, and the outside as two traits with their implementations.
#![tactic(auto)]

mod boxed;
mod copied;
mod error;
mod files;
mod list;
mod mem_files;
mod mem_sink;
mod name;
mod operator;
mod place;
mod real_files;
mod real_sink;
mod refusal;
mod shelf;
mod showing;
mod sink;
mod sure;
mod too_large;

pub use boxed::Boxed;
pub use copied::{copied_step, number_of, owning_step};
pub use error::{NoMemory, ReadFault, SinkFailed, WriteFault};
pub use files::Files;
pub use list::List;
pub use mem_files::MemFiles;
pub use mem_sink::MemSink;
pub use name::{Name, Word};
pub use operator::{Binary, Operands, Operator, Unary};
pub use place::line_column;
pub use real_files::RealFiles;
pub use real_sink::RealSink;
pub use refusal::{Code, Direction, Pos, Refusal, Role, Side};
pub use showing::{Reason, Showing, Subject};
pub use sink::Sink;
pub use sure::{SureFiles, SureSink};
pub use too_large::{TooLarge, as_number};
