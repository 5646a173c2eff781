//! Why a row does not hold, and what else stops the reading and the running of rows.

ghost use Rattle.std.specs.Prelude.{⊤};

use p3_base::NoMemory;
use std::alloc::{AllocError, AllocFailed, Global};
use std::io;

/// What is wrong at a line of a file of rows.
#[derive(Drop)]
pub(crate) struct Complaint {
    line: u32,
    words: String,
}

impl Complaint {
    /// The number of the line.
    pub(crate) fn line(&self) -> u32 {
        self.line
    }

    /// What is wrong there.
    pub(crate) fn words(&self) -> &str {
        self.words.as_str()
    }
}

/// Why reading or running rows stops.
#[derive(Drop)]
pub(crate) enum Stop {
    /// Something is wrong with the rows, or with what came of them.
    Wrong(Complaint),
    /// Memory is wanting.
    NoMemory,
    /// The folder was not read, or the verdict was not printed.
    Outside,
}

impl Stop {
    /// Something is wrong at a line.
    pub(crate) fn at(line: u32, words: String) -> Stop {
        Stop::Wrong(Complaint { line, words })
    }

    /// Something is wrong at a line, in words that are given.
    pub(crate) fn saying(alloc: Global, line: u32, words: &str) -> Stop {
        match String::from_str(alloc, words) {
            Ok(words) => Stop::at(line, words),
            Err(_) => Stop::NoMemory,
        }
    }
}

impl From<AllocError> for Stop {
    ghost from_gives = { λ _ _. ⊤ };

    fn from(_error: AllocError) -> Stop {
        Stop::NoMemory
    }
}

impl<T: Drop> From<AllocFailed<T>> for Stop {
    ghost from_gives = { λ _ _. ⊤ };

    fn from(_error: AllocFailed<T>) -> Stop {
        Stop::NoMemory
    }
}

impl From<NoMemory> for Stop {
    ghost from_gives = { λ _ _. ⊤ };

    fn from(_error: NoMemory) -> Stop {
        Stop::NoMemory
    }
}

impl From<io::Error> for Stop {
    ghost from_gives = { λ _ _. ⊤ };

    fn from(_error: io::Error) -> Stop {
        Stop::Outside
    }
}
