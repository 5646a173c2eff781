//! The statuses of the process that are given here.

/// What is asked is answered, and a plan is valid.
pub(crate) const DONE: u8 = 0;

/// A plan is not valid.
pub(crate) const INVALID: u8 = 1;

/// Memory was wanting.
pub(crate) const OUT_OF_MEMORY: u8 = 5;

/// The answer was not put.
pub(crate) const UNPUT: u8 = 6;

/// The words have none of the listed shapes.
pub(crate) const USAGE: u8 = 64;
