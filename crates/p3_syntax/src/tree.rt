//! Readers of the grammar's places over views: each gives what the place gives of the expression
//! that the view is.

mod actions;
mod constraints;
pub(crate) mod domains;
mod effects;
mod formulas;
mod goals;
mod groups;
mod lists;
mod metrics;
mod numerals;
mod parts;
pub(crate) mod problems;
mod sections;
mod words;
