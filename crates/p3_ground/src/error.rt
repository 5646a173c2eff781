//! Why a task was not grounded.

ghost use Rattle.std.specs.Prelude.{◌≡◌};

use p3_base::{NoMemory, Refusal};
use thiserror::Error;

/// Why a task was not grounded.
#[derive(Debug, Drop, Error)]
pub enum GroundFail {
    /// One of its sizes passes a limit.
    #[error("the task is refused")]
    Refused(Refusal),
    /// Memory is wanting.
    #[error("want of memory")]
    NoMemory,
}

impl From<NoMemory> for GroundFail {
    ghost use Rattle.p3_ground.specs.declared.error.GroundFail.TheVariants as fail;

    ghost from_gives = { λ _ f. f ≡ fail.NoMemory };

    fn from(_error: NoMemory) -> GroundFail {
        GroundFail::NoMemory
    }
}
