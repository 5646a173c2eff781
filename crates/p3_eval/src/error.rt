//! Why a task was not accepted.

ghost use Rattle.std.specs.Prelude.{◌≡◌};
ghost use Rattle.p3_eval.specs.Failing.{fail_of_metric, fail_of_ground};

use p3_base::{NoMemory, Refusal};
use p3_ground::GroundFail;
use p3_metric::MetricFail;
use thiserror::Error;

/// Why a task was not accepted.
#[derive(Debug, Drop, Error)]
pub enum WholeFail {
    /// Its metric is refused, or it passes a limit.
    #[error("the task is refused")]
    Refused(Refusal),
    /// Memory is wanting.
    #[error("want of memory")]
    NoMemory,
}

impl From<MetricFail> for WholeFail {
    ghost from_gives = { λ error fail. fail ≡ fail_of_metric error };

    fn from(error: MetricFail) -> WholeFail {
        match error {
            MetricFail::Refused(refusal) => WholeFail::Refused(refusal),
            MetricFail::NoMemory => WholeFail::NoMemory,
        }
    }
}

impl From<GroundFail> for WholeFail {
    ghost from_gives = { λ error fail. fail ≡ fail_of_ground error };

    fn from(error: GroundFail) -> WholeFail {
        match error {
            GroundFail::Refused(refusal) => WholeFail::Refused(refusal),
            GroundFail::NoMemory => WholeFail::NoMemory,
        }
    }
}

impl From<NoMemory> for WholeFail {
    ghost use Rattle.p3_eval.specs.declared.error.WholeFail.TheVariants as fail;

    ghost from_gives = { λ _ f. f ≡ fail.NoMemory };

    fn from(_error: NoMemory) -> WholeFail {
        WholeFail::NoMemory
    }
}
