//! The metric of a task as weights.
#![tactic(auto)]

mod entries;
mod error;
mod evaluate;
mod factors;
mod laws;
mod leaves;
mod linear;
mod metric;
mod negative;
mod places;
mod refused;
mod spot;
mod weights;
mod words;

pub use error::MetricFail;
pub use laws::{accepted_metrics_are_linear, losses_are_weighed};
pub use metric::normalise;
pub use p3_limits::bounds;
pub use places::metric_places;
