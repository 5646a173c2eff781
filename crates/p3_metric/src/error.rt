//! Why a metric is not taken.

ghost use Rattle.std.specs.Prelude.{◌≡◌};
ghost use Rattle.p3_metric.specs.declared.error.MetricFail.TheVariants as fail;

use p3_base::{NoMemory, Refusal};
use thiserror::Error;

/// Why a metric has no weights.
#[derive(Debug, Drop, Error)]
pub enum MetricFail {
    /// The metric is refused.
    #[error("the metric is refused")]
    Refused(Refusal),
    /// Memory is wanting.
    #[error("want of memory")]
    NoMemory,
}

impl From<NoMemory> for MetricFail {
    ghost from_gives = { λ _ f. f ≡ fail.NoMemory };

    fn from(_error: NoMemory) -> MetricFail {
        MetricFail::NoMemory
    }
}
