//! Why a plan was not read.

ghost use Rattle.std.specs.Prelude.{◌≡◌};
ghost use Rattle.p3_plans.specs.declared.error.PlanFail.TheVariants as fail;

use p3_base::{NoMemory, Refusal};
use thiserror::Error;

/// Why a plan was not read.
#[derive(Debug, Drop, Error)]
pub enum PlanFail {
    /// The text is of no plan.
    #[error("the text is refused")]
    Refused(Refusal),
    /// Memory is wanting.
    #[error("want of memory")]
    NoMemory,
}

impl From<NoMemory> for PlanFail {
    ghost from_gives = { λ _ f. f ≡ fail.NoMemory };

    fn from(_error: NoMemory) -> PlanFail {
        PlanFail::NoMemory
    }
}
