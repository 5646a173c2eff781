//! Laws of metrics and their weights. Each is the contract of a function without a body.

ghost use Rattle.p3_base.specs.declared.refusal.Side.{Side};
ghost use Rattle.p3_formula.specs.declared.target.Weights.{Weights};
ghost use Rattle.p3_metric.specs.Weighed.{HasWeights, IsLinearMetric, IsWeights};
ghost use Rattle.p3_task.specs.Offences.{WellFormed};
ghost use Rattle.p3_task.specs.Refusals.Metric.{metric_refusals};
ghost use Rattle.p3_task.specs.Refusals.Places.{first_some};
ghost use Rattle.p3_task.specs.declared.task.Task.{Task};
ghost use Rattle.std.specs.Prelude.{None, ◌≡◌};

/// A metric of which nothing is refused is linear.
pub fn accepted_metrics_are_linear()
    ensures { (side : Side) (T : Task)
        → first_some (metric_refusals side T) ≡ None → IsLinearMetric T }
{}

/// For all counts and total costs, the loss of a linear metric is the base with the weighted counts
/// and the weighted growth of the total cost.
pub fn losses_are_weighed()
    ensures { (T : Task) (w : Weights)
        → WellFormed T → IsLinearMetric T → HasWeights T w → IsWeights T w }
{}
