//! The metric of a checked task.

ghost use Rattle.std.specs.Prelude.{◌≡◌, None, IfOk, IfErr, OnOk};
ghost use Rattle.p3_task.specs.Refusals.Metric.{metric_refusals};
ghost use Rattle.p3_task.specs.Refusals.Places.{first_some};
ghost use Rattle.p3_numbers.specs.Keys.{start_of};
ghost use Rattle.p3_metric.specs.Refused.{IsRefusal};
ghost use Rattle.p3_metric.specs.Weighed.{HasWeights, IsWeights};

use crate::MetricFail;
use crate::evaluate::Evaluator;
use p3_formula::Weights;
use p3_limits::{cut_units, problem_role};
use p3_numbers::{Key, listed_key};
use p3_types::Checked;
use std::alloc::Global;

/// The key of the names of a checked task's preferences.
fn count_key(task: &Checked) -> Key
    ensures { result.start ≡ start_of task.now.numbered.numbers.preferences }
{
    listed_key(task.numbered().numbers.preferences.items())
}

/// The metric of a checked task as weights: for all counts and total costs, the loss is the base
/// with the weighted counts and the weighted growth of the total cost, in units of the metric's
/// last decimal place and of the costs' last one. Without a metric all are 0, and small is better.
///
/// # Errors
///
/// The first refusal of the metric: a product of two quantities, at its `*`; too many decimal
/// places, at the outermost operator; an amount or a value of too many units, at the number; an
/// operation with a coefficient or a constant of 2 ^ 62 or more, at its operator; a count or the
/// total cost whose weight is negative, at its first mention. And want of memory, which is
/// answered too where the word at fault has 2 ^ 32 bytes or more.
pub fn normalise(alloc: Global, task: &Checked) -> Result<Weights, MetricFail>
    ensures loss { IfOk result (IsWeights task.now.task) }
    ensures weights { IfOk result (HasWeights task.now.task) }
    ensures accepted { OnOk result
        (first_some (metric_refusals task.now.side task.now.task) ≡ None) }
    ensures refused { IfErr result
        (IsRefusal (first_some (metric_refusals task.now.side task.now.task))) }
{
    let side = task.side();
    let evaluator = Evaluator {
        alloc,
        key: count_key(task),
        task: task.task(),
        side,
        role: problem_role(side),
        cost_places: task.cost_places(),
        initial_cost: cut_units(task.initial_cost()),
    };
    evaluator.weights(task.numbered().numbers.preferences.items())
}
