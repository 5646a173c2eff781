//! Tasks whose names are checked, their steps by number, and what their costs are counted in.
#![tactic(auto)]

mod checked;
mod checking;
mod costs;
mod error;
mod finding;
mod initial;
mod laws;
mod name_order;
mod parts;
mod stepping;
mod steps;
mod words;

pub use checked::Checked;
pub use checking::check;
pub use error::CheckFail;
pub use finding::Found;
pub use laws::texts_have_short_numbers;
