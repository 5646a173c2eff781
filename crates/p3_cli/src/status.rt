//! The statuses of the process.

/// Everything was done, and the report was put.
pub(crate) const DONE: u8 = 0;

/// A plan is not valid.
pub(crate) const INVALID: u8 = 1;

/// What was read is refused.
pub(crate) const REFUSED: u8 = 2;

/// An input was not read.
pub(crate) const UNREAD: u8 = 3;

/// An output was not written.
pub(crate) const UNWRITTEN: u8 = 4;

/// Memory was wanting.
pub(crate) const OUT_OF_MEMORY: u8 = 5;

/// Everything was done, but the report was not put.
pub(crate) const UNPUT: u8 = 6;

/// The words have none of the listed shapes.
pub(crate) const USAGE: u8 = 64;
