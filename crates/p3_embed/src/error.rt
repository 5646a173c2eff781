//! Why a plan was not embedded.

ghost use Rattle.std.specs.Prelude.{◌≡◌};
ghost use Rattle.p3_embed.specs.declared.error.EmbedFail.TheVariants as fail;

use p3_base::NoMemory;
use p3_eval::PlanFault;
use thiserror::Error;

/// Why a plan was not embedded.
#[derive(Debug, Drop, Error)]
pub enum EmbedFail {
    /// It is not valid for the task, and this is its first fault.
    #[error("the plan is not valid")]
    Invalid(PlanFault),
    /// Memory is wanting.
    #[error("want of memory")]
    NoMemory,
}

impl From<NoMemory> for EmbedFail {
    ghost from_gives = { λ _ f. f ≡ fail.NoMemory };

    fn from(_error: NoMemory) -> EmbedFail {
        EmbedFail::NoMemory
    }
}
