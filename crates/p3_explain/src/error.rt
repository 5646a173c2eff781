//! Why a plan is not explained.

ghost use Rattle.std.specs.Prelude.{◌≡◌};
ghost use Rattle.p3_explain.specs.declared.error.ExplainFail.TheVariants as fail;

use p3_base::NoMemory;
use p3_eval::PlanFault;
use thiserror::Error;

/// Why a plan is not explained.
#[derive(Debug, Drop, Error)]
pub enum ExplainFail {
    /// This step does not fit, and all before it do.
    #[error("a step does not fit")]
    Fault(PlanFault),
    /// Memory is wanting.
    #[error("want of memory")]
    NoMemory,
}

impl From<NoMemory> for ExplainFail {
    ghost from_gives = { λ _ f. f ≡ fail.NoMemory };

    fn from(_error: NoMemory) -> ExplainFail {
        ExplainFail::NoMemory
    }
}
