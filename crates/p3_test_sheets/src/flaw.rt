//! What is wrong with a line, before the line's number is told.

ghost use Rattle.std.specs.Prelude.{⊤};

use crate::complaint::Stop;
use p3_base::NoMemory;
use std::alloc::{AllocError, AllocFailed, Global};

/// Why a line is not read.
#[derive(Clone, Copy, Debug, Drop)]
pub(crate) enum Flaw {
    /// What is wrong, in words.
    Told(&'static str),
    /// Memory is wanting.
    NoMemory,
}

impl From<AllocError> for Flaw {
    ghost from_gives = { λ _ _. ⊤ };

    fn from(_error: AllocError) -> Flaw {
        Flaw::NoMemory
    }
}

impl<T: Drop> From<AllocFailed<T>> for Flaw {
    ghost from_gives = { λ _ _. ⊤ };

    fn from(_error: AllocFailed<T>) -> Flaw {
        Flaw::NoMemory
    }
}

impl From<NoMemory> for Flaw {
    ghost from_gives = { λ _ _. ⊤ };

    fn from(_error: NoMemory) -> Flaw {
        Flaw::NoMemory
    }
}

impl Flaw {
    /// The flaw, at a line.
    pub(crate) fn at(self, alloc: Global, line: u32) -> Stop {
        match self {
            Flaw::Told(words) => Stop::saying(alloc, line, words),
            Flaw::NoMemory => Stop::NoMemory,
        }
    }
}
