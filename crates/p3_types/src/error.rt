//! Why a task was not checked.

ghost use Rattle.std.specs.Prelude.{◌≡◌};

use p3_base::{NoMemory, Refusal};
use thiserror::Error;

/// Why a task was not checked.
#[derive(Debug, Drop, Error)]
pub enum CheckFail {
    /// The task is not well-formed.
    #[error("the task is refused")]
    Refused(Refusal),
    /// Memory is wanting.
    #[error("want of memory")]
    NoMemory,
}

impl From<NoMemory> for CheckFail {
    ghost use Rattle.p3_types.specs.declared.error.CheckFail.TheVariants as fail;

    ghost from_gives = { λ _ f. f ≡ fail.NoMemory };

    fn from(_error: NoMemory) -> CheckFail {
        CheckFail::NoMemory
    }
}
