//! Plans judged by runs: the first fault of one, or what it comes to.

ghost use Rattle.std.specs.Prelude.{◌≡◌, ◌<◌, ◌^◌, ◌-ℤ◌, IfOk};
ghost use Rattle.std.specs.List.{All};
ghost use Rattle.p3_task.specs.Metrics.{signed};
ghost use Rattle.p3_ground.specs.StandsFor.{LeftOutAt};
ghost use Rattle.p3_eval.specs.Steps.{AreOfPlan, OfSteps};
ghost use Rattle.p3_lift.specs.Judging.{IsAboveBase, IsOutcome};

use p3_base::{Direction, NoMemory};
use p3_eval::{Grounded, PlanFault, Steps};
use std::alloc::Global;

/// What a valid plan comes to, in units.
#[derive(Clone, Copy, Debug)]
pub(crate) struct Worth {
    /// The value of the metric.
    pub(crate) metric: i128,
    /// The loss above the base.
    pub(crate) loss: i128,
}

/// What judging a plan comes to.
#[derive(Clone, Copy, Debug)]
pub(crate) enum Outcome {
    /// It is not valid, and this is its first fault.
    Fault(PlanFault),
    /// It is valid.
    Valid(Worth),
}

/// The weights, each of 64 bits.
fn bounded(by_name: &[u64]) -> &[u64]
    ensures are { result.now ≡ by_name.now }
    ensures small { All (λ weight. weight < 2 ^ 64) by_name.now }
{
    by_name
}

/// The loss above the base of a plan whose metric has that value.
fn loss_above(direction: Direction, base: i128, metric: i128) -> i128
    requires { IsAboveBase direction base metric }
    ensures { result ≡ signed direction metric -ℤ base }
{
    match direction {
        Direction::Minimize => metric - base,
        Direction::Maximize => -metric - base,
    }
}

/// The first fault of the plan of these steps; or its value and its loss above the base, where it is
/// valid.
///
/// # Errors
///
/// Want of memory.
pub(crate) fn judged(
    alloc: Global,
    grounded: &Grounded<'_>,
    steps: &Steps,
) -> Result<Outcome, NoMemory>
    requires asked { All (LeftOutAt grounded.now.checked.now.task grounded.now.ground_task.now)
        steps.now.numbers.items }
    requires some { AreOfPlan grounded.now.checked.now.task steps.now }
    ensures { IfOk result (λ outcome. OfSteps grounded.now.checked.now.task steps.now
        (λ plan. IsOutcome grounded.now.checked.now.task plan outcome)) }
{
    let mut run = grounded.begin(alloc)?;
    if let Some(fault) = run.judge_steps(steps) {
        return Ok(Outcome::Fault(fault));
    }
    let weights = grounded.weights();
    // No sum of so few weights of 64 bits leaves 126 bits.
    let _bounded = bounded(weights.by_name.items());
    let metric = run.metric();
    let loss = loss_above(weights.direction, weights.base, metric);
    Ok(Outcome::Valid(Worth { metric, loss }))
}
