//! The errors of the outside and of memory.

ghost use Rattle.std.specs.Prelude.{◌≡◌, ⊤};

use std::alloc::{AllocError, AllocFailed};
use thiserror::Error;

/// Memory is wanting: the one answer that a call that takes memory is free to give.
#[derive(Clone, Copy, Debug, PartialEq, Eq, Error)]
#[error("want of memory")]
pub struct NoMemory;

impl From<AllocError> for NoMemory {
    ghost from_gives = { λ _ _. ⊤ };

    fn from(_error: AllocError) -> NoMemory {
        NoMemory
    }
}

impl<T: Drop> From<AllocFailed<T>> for NoMemory {
    ghost from_gives = { λ _ _. ⊤ };

    fn from(_error: AllocFailed<T>) -> NoMemory {
        NoMemory
    }
}

/// A sink took no more of what was put.
#[derive(Clone, Copy, Debug, PartialEq, Eq, Error)]
#[error("the sink failed")]
pub struct SinkFailed;

/// Why a file was not read.
#[derive(Clone, Copy, Debug, PartialEq, Eq, Error)]
pub enum ReadFault {
    /// The file has more bytes than the limit.
    #[error("the file is too long")]
    TooLong,
    /// The store failed.
    #[error("the file was not read")]
    Failed,
    /// Memory is wanting.
    #[error("want of memory")]
    NoMemory,
}

/// Why a file was not written.
#[derive(Clone, Copy, Debug, PartialEq, Eq, Error)]
pub enum WriteFault {
    /// The store failed.
    #[error("the file was not written")]
    Failed,
    /// Memory is wanting.
    #[error("want of memory")]
    NoMemory,
}
