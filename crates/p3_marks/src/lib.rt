//! Why a ground plan satisfies its constraints and preferences, or does not: a mark for each
//! operator, which follows one state after another, and the reasons that the marks show.
#![tactic(auto)]

mod group;
mod mark;
mod marks;
mod prefs;
mod reasons;

pub use mark::Mark;
pub use marks::OperatorMarks;
pub use prefs::push_false_prefs;
