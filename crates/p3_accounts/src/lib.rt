//! The account of a plan: why it is not valid or costs what it costs, put into a sink in lines that
//! an editor jumps to. Nothing is put that takes memory.
#![tactic(auto)]

mod account;
mod heading;
mod item;
mod laws;
mod lines;
mod meaning;
mod operator;
mod share;
mod shares;
mod spot;
mod state;
mod subject;
mod terms;
mod words;

pub use account::{Account, put_account};
pub use heading::{Heading, put_heading};
pub use laws::{accounts_are_of_plans, worked_accounts};
pub use lines::Lines;
pub use meaning::{Meaning, Meant, Settling, put_meaning, put_meanings};
pub use operator::OperatorKind;
pub use share::{CostShare, NameShare, Shares};
pub use shares::put_shares;
pub use spot::Spot;
pub use state::{Shown, ShownState};
pub use subject::{Binding, StepFault, Subject};
pub use terms::{InputFile, Terms};
