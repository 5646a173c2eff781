//! Tasks of which nothing is refused, before they are grounded.

ghost use Rattle.std.specs.Prelude.{◌≡◌, ◌≤◌, None, IfErr, IfOk, IsTrue, OnOk};
ghost use Rattle.p3_task.specs.Limits.{step_count};
ghost use Rattle.p3_task.specs.Refusals.First.{task_refusal};
ghost use Rattle.p3_task.specs.Sides.{step_count_limit};
ghost use Rattle.p3_ground.specs.Sparse.{IsGroundingAmong};
ghost use Rattle.p3_ground.specs.StandsFor.{StandsIn};
ghost use Rattle.p3_metric.specs.Weighed.{HasWeights};
ghost use Rattle.p3_eval.specs.Accepted.{IsFailOf, is_accepted};

use crate::rising::rising_of;
use crate::{Grounded, WholeFail};
use p3_base::NoMemory;
use p3_formula::{GroundTask, Weights};
use p3_ground::ground_among;
use p3_limits::{bounds, size_refusal};
use p3_metric::normalise;
use p3_types::Checked;
use std::alloc::Global;

/// A checked task with the weights of its metric. Nothing is refused of it.
#[derive(Drop)]
pub struct Accepted {
    pub(crate) checked: Checked,
    pub(crate) weights: Weights,
    pub ghost weighing: { ∥ HasWeights checked.task weights ∥₁ },
    pub ghost accepted: { IsTrue (is_accepted checked.side checked.task) },
}

impl Accepted {
    /// Accepts a task with its weights. It is not grounded: a plan of it can be judged by the steps
    /// that the plan names.
    ///
    /// # Errors
    ///
    /// The first refusal of the task: that of its metric, a limit that its sizes pass, or an action
    /// that is too dear or has too many weighted preferences. And want of memory.
    pub fn accept(alloc: Global, checked: Checked) -> Result<Accepted, WholeFail>
        ensures task { IfOk result (λ accepted. accepted.checked ≡ checked) }
        ensures weights { IfOk result (λ accepted. HasWeights checked.task accepted.weights) }
        ensures accepted { OnOk result (task_refusal checked.side checked.task ≡ None) }
        ensures refused { IfErr result (IsFailOf checked.side checked.task) }
    {
        match weights_of(alloc, &checked) {
            Ok(weights) => Ok(Accepted { checked, weights }),
            Err(fail) => {
                drop(checked);
                Err(fail)
            }
        }
    }

    /// The checked task. Nothing is refused of it, so its steps are few enough to be found.
    pub fn checked(&self) -> &Checked
        ensures checked { result.now ≡ self.now.checked }
        ensures accepted { task_refusal self.now.checked.side self.now.checked.task ≡ None }
        ensures few { step_count self.now.checked.task ≤ step_count_limit }
    {
        &self.checked
    }

    /// Grounds the steps of these numbers and no others, so that it takes the time of a plan that has
    /// them, whatever else the task has.
    ///
    /// # Errors
    ///
    /// Want of memory.
    pub fn ground_steps(&self, alloc: Global, numbers: &[u32]) -> Result<GroundTask, NoMemory>
        ensures { IfOk result (IsGroundingAmong self.now.checked.task numbers.now) }
    {
        let checked = self.checked();
        let rising = rising_of(alloc, numbers, checked.step_count())?;
        let ground_task = ground_among(alloc, checked, rising.as_slice())?;
        Ok(ground_task)
    }

    /// Takes the task with a ground task of some of its steps.
    pub fn grounded<'a>(&'a self, ground_task: &'a GroundTask) -> Grounded<'a>
        requires { StandsIn self.now.checked.task ground_task.now }
        ensures checked { result.checked.now ≡ self.now.checked }
        ensures ground_task { result.ground_task.now ≡ ground_task.now }
        ensures weights { result.weights.now ≡ self.now.weights }
    {
        Grounded {
            checked: &self.checked,
            ground_task,
            weights: &self.weights,
        }
    }
}

/// The weights of a task of which nothing is refused; or its first refusal.
fn weights_of(alloc: Global, task: &Checked) -> Result<Weights, WholeFail>
    ensures weights { IfOk result (HasWeights task.now.task) }
    ensures accepted { OnOk result (task_refusal task.now.side task.now.task ≡ None) }
    ensures refused { IfErr result (IsFailOf task.now.side task.now.task) }
{
    let weights = normalise(alloc, task)?;
    if let Some(refusal) = size_refusal(task.side(), task.task(), task.numbered())? {
        return Err(WholeFail::Refused(refusal));
    }
    match bounds(task, &weights) {
        None => Ok(weights),
        Some(refusal) => Err(WholeFail::Refused(refusal)),
    }
}
