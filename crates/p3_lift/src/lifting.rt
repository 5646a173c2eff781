//! Lifting a plan.

ghost use Rattle.std.specs.Prelude.{◌≤◌, ◌<◌, length, IfOk, IfErr};
ghost use Rattle.std.specs.List.{All};
ghost use Rattle.p3_task.specs.Limits.{step_count};
ghost use Rattle.p3_ground.specs.StandsFor.{LeftOutAt};
ghost use Rattle.p3_run.specs.Runs.{most_steps};
ghost use Rattle.p3_eval.specs.Steps.{AreOfPlan, OfSteps};
ghost use Rattle.p3_lift.specs.Lifting.{IsLiftFail, IsLifted, lifted_of};
ghost use Rattle.p3_lift.specs.Judging.{DiffersAt, IsComparison, IsNoPlanOf, IsPlanAt, IsWorthAt};

use crate::judging::{Outcome, Worth, judged};
use crate::plain::is_plain;
use crate::steps::{copied_steps, plan_of};
use crate::{Differ, LiftFail, Lifted, LiftedSteps};
use p3_eval::{Accepted, Grounded, Steps, Whole};
use p3_task::Plan;
use std::alloc::Global;

/// Lifts a plan of a written plain task to the task read. Where the plan is valid for the written
/// task, the lifted plan is judged too: it must be valid for the task read, and its loss above the
/// base must be what the plan costs.
///
/// # Errors
///
/// The written task is not plain; the plan is not valid for it; the lifted plan is not valid, or
/// its loss above the base is not the plan's cost; in this order. And want of memory.
pub fn lift(alloc: Global, source: &Whole, written: &Whole, plan: &Plan) -> Result<Lifted, LiftFail>
    requires few { length plan.now ≤ most_steps }
    ensures lifted { IfOk result
        (IsLifted source.now.checked.task written.now.checked.task plan.now) }
    ensures refused { IfErr result
        (IsLiftFail source.now.checked.task written.now.checked.task plan.now) }
{
    let steps = Steps::of_plan(alloc, written.checked(), plan.items())?;
    let cost = match cost_of(alloc, &written.grounded(), &steps) {
        Ok(cost) => cost,
        Err(fail) => return Err(fail),
    };
    let copied = copied_steps(alloc, source.checked(), written.checked(), &steps)?;
    let metric = match metric_of(alloc, &source.grounded(), &copied, cost) {
        Ok(metric) => metric,
        Err(fail) => return Err(fail),
    };
    let plan = plan_of(alloc, source.checked(), copied.numbers.as_slice())?;
    Ok(Lifted { plan, cost, metric })
}

/// Lifts a plan as `lift` does, by the numbers of its steps, between tasks that are not grounded: the
/// steps are that the plan names, and those of one task at a time.
///
/// # Errors
///
/// Those of `lift`.
pub fn lift_steps(
    alloc: Global,
    source: &Accepted,
    written: &Accepted,
    steps: &Steps,
) -> Result<LiftedSteps, LiftFail>
    requires some { AreOfPlan written.now.checked.task steps.now }
    ensures lifted { IfOk result (λ lifted. OfSteps written.now.checked.task steps.now
        (λ plan. IsLifted source.now.checked.task written.now.checked.task plan
        (lifted_of source.now.checked.task lifted))) }
    ensures within { IfOk result (λ lifted.
        All (λ number. number < step_count source.now.checked.task) lifted.numbers.items) }
    ensures refused { IfErr result (λ fail. OfSteps written.now.checked.task steps.now
        (λ plan. IsLiftFail source.now.checked.task written.now.checked.task plan fail)) }
{
    let cost = match cost_among(alloc, written, steps) {
        Ok(cost) => cost,
        Err(fail) => return Err(fail),
    };
    let copied = copied_steps(alloc, source.checked(), written.checked(), steps)?;
    let metric = match metric_among(alloc, source, &copied, cost) {
        Ok(metric) => metric,
        Err(fail) => return Err(fail),
    };
    Ok(LiftedSteps {
        numbers: copied.numbers,
        cost,
        metric,
    })
}

/// Tells what the plan of these steps costs in the written task, which is plain, and for which the
/// plan is valid.
fn cost_of(alloc: Global, written: &Grounded<'_>, steps: &Steps) -> Result<i128, LiftFail>
    requires asked { All (LeftOutAt written.now.checked.now.task written.now.ground_task.now)
        steps.now.numbers.items }
    requires some { AreOfPlan written.now.checked.now.task steps.now }
    ensures cost { IfOk result (λ cost. OfSteps written.now.checked.now.task steps.now
        (IsPlanAt written.now.checked.now.task steps.now.numbers.items cost)) }
    ensures refused { IfErr result (λ fail. OfSteps written.now.checked.now.task steps.now
        (IsNoPlanOf written.now.checked.now.task fail)) }
{
    if !is_plain(written) {
        return Err(LiftFail::NotPlain);
    }
    match judged(alloc, written, steps)? {
        Outcome::Fault(fault) => Err(LiftFail::Invalid(fault)),
        Outcome::Valid(worth) => Ok(worth.metric),
    }
}

/// Tells it of a written task that is not grounded. The ground task of its steps is let go.
fn cost_among(alloc: Global, written: &Accepted, steps: &Steps) -> Result<i128, LiftFail>
    requires some { AreOfPlan written.now.checked.task steps.now }
    ensures cost { IfOk result (λ cost. OfSteps written.now.checked.task steps.now
        (IsPlanAt written.now.checked.task steps.now.numbers.items cost)) }
    ensures refused { IfErr result (λ fail. OfSteps written.now.checked.task steps.now
        (IsNoPlanOf written.now.checked.task fail)) }
{
    let ground_task = written.ground_steps(alloc, steps.numbers.as_slice())?;
    let cost = cost_of(alloc, &written.grounded(&ground_task), steps);
    drop(ground_task);
    cost
}

/// Tells the value of the lifted plan of these steps, which is valid for the task read, and whose
/// loss above the base is the cost.
fn metric_of(
    alloc: Global,
    source: &Grounded<'_>,
    copied: &Steps,
    cost: i128,
) -> Result<i128, LiftFail>
    requires asked { All (LeftOutAt source.now.checked.now.task source.now.ground_task.now)
        copied.now.numbers.items }
    requires some { AreOfPlan source.now.checked.now.task copied.now }
    ensures metric { IfOk result (λ metric. OfSteps source.now.checked.now.task copied.now
        (IsWorthAt source.now.checked.now.task cost metric)) }
    ensures refused { IfErr result (λ fail. OfSteps source.now.checked.now.task copied.now
        (DiffersAt source.now.checked.now.task cost fail)) }
{
    match judged(alloc, source, copied)? {
        Outcome::Fault(fault) => Err(LiftFail::Mismatch(Differ::Fault(fault))),
        Outcome::Valid(worth) => compared(cost, worth),
    }
}

/// Tells it of a task read that is not grounded. The ground task of its steps is let go.
fn metric_among(
    alloc: Global,
    source: &Accepted,
    copied: &Steps,
    cost: i128,
) -> Result<i128, LiftFail>
    requires some { AreOfPlan source.now.checked.task copied.now }
    ensures metric { IfOk result (λ metric. OfSteps source.now.checked.task copied.now
        (IsWorthAt source.now.checked.task cost metric)) }
    ensures refused { IfErr result (λ fail. OfSteps source.now.checked.task copied.now
        (DiffersAt source.now.checked.task cost fail)) }
{
    let ground_task = source.ground_steps(alloc, copied.numbers.as_slice())?;
    let metric = metric_of(alloc, &source.grounded(&ground_task), copied, cost);
    drop(ground_task);
    metric
}

/// Tells the value, where the loss above the base is the cost.
fn compared(cost: i128, worth: Worth) -> Result<i128, LiftFail>
    ensures { IsComparison cost worth result }
{
    if worth.loss == cost {
        return Ok(worth.metric);
    }
    Err(LiftFail::Mismatch(Differ::Numbers {
        cost,
        loss: worth.loss,
    }))
}
