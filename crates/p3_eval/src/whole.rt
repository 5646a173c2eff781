//! A task with all that belongs to it.

ghost use Rattle.std.specs.Prelude.{◌≡◌, ◌≤◌, None, IfOk, IfErr, OnOk, IsTrue};
ghost use Rattle.p3_task.specs.Limits.{step_count};
ghost use Rattle.p3_task.specs.Refusals.First.{task_refusal};
ghost use Rattle.p3_task.specs.Sides.{step_count_limit};
ghost use Rattle.p3_formula.specs.Conditions.{IsReady};
ghost use Rattle.p3_ground.specs.Sparse.{IsGroundingOf};
ghost use Rattle.p3_ground.specs.StandsFor.{LeavesOutOnlyUnfit};
ghost use Rattle.p3_metric.specs.Weighed.{HasWeights, IsLinearMetric};
ghost use Rattle.p3_run.specs.Runs.{begun};
ghost use Rattle.p3_eval.specs.Accepted.{IsFailOf, is_accepted};
ghost use Rattle.p3_eval.specs.Runs.{BelongTogether};

use crate::{Accepted, Grounded, Run, WholeFail};
use p3_base::NoMemory;
use p3_formula::{GroundTask, Weights};
use p3_ground::ground;
use p3_types::Checked;
use std::alloc::Global;

/// A checked task with the ground task that stands for it and the weights of its metric. Nothing is
/// refused of it.
#[derive(Drop)]
pub struct Whole {
    checked: Checked,
    ground_task: GroundTask,
    weights: Weights,
    pub ghost grounding: { ∥ IsGroundingOf checked.task ground_task ∥₁ },
    pub ghost weighing: { ∥ HasWeights checked.task weights ∥₁ },
    pub ghost linear: { ∥ IsLinearMetric checked.task ∥₁ },
    pub ghost accepted: { IsTrue (is_accepted checked.side checked.task) },
}

impl Whole {
    /// The accepted task with the ground task that stands for it.
    fn of(accepted: Accepted, ground_task: GroundTask) -> Whole
        requires grounding { IsGroundingOf accepted.checked.task ground_task }
        requires weights { HasWeights accepted.checked.task accepted.weights }
        ensures task { result.checked ≡ accepted.checked }
        ensures grounding { IsGroundingOf accepted.checked.task result.ground_task }
        ensures weights { HasWeights accepted.checked.task result.weights }
        ensures ready { IsReady result.ground_task result.weights }
    {
        let Accepted { checked, weights } = accepted;
        Whole {
            checked,
            ground_task,
            weights,
        }
    }

    /// Grounds all steps of an accepted task.
    fn with_all_steps(alloc: Global, accepted: Accepted) -> Result<Whole, WholeFail>
        requires weights { HasWeights accepted.checked.task accepted.weights }
        ensures task { IfOk result (λ whole. whole.checked ≡ accepted.checked) }
        ensures grounding { IfOk result
            (λ whole. IsGroundingOf accepted.checked.task whole.ground_task) }
        ensures weights { IfOk result (λ whole. HasWeights accepted.checked.task whole.weights) }
        ensures ready { IfOk result (λ whole. IsReady whole.ground_task whole.weights) }
        ensures refused { IfErr result (IsFailOf accepted.checked.side accepted.checked.task) }
    {
        match ground(alloc, accepted.checked()) {
            Ok(ground_task) => Ok(Whole::of(accepted, ground_task)),
            Err(fail) => {
                drop(accepted);
                Err(WholeFail::from(fail))
            }
        }
    }

    /// The task with its ground task and its weights, which can be compiled.
    ///
    /// # Errors
    ///
    /// The first refusal of the task: that of its metric, a limit that its sizes pass, or an action
    /// that is too dear or has too many weighted preferences. And want of memory.
    pub fn accept(alloc: Global, checked: Checked) -> Result<Whole, WholeFail>
        ensures task { IfOk result (λ whole. whole.checked ≡ checked) }
        ensures grounding { IfOk result (λ whole. IsGroundingOf checked.task whole.ground_task) }
        ensures weights { IfOk result (λ whole. HasWeights checked.task whole.weights) }
        ensures ready { IfOk result (λ whole. IsReady whole.ground_task whole.weights) }
        ensures accepted { OnOk result (task_refusal checked.side checked.task ≡ None) }
        ensures refused { IfErr result (IsFailOf checked.side checked.task) }
    {
        match Accepted::accept(alloc, checked) {
            Ok(accepted) => Whole::with_all_steps(alloc, accepted),
            Err(fail) => Err(fail),
        }
    }

    /// The checked task. Nothing is refused of it, so its steps are few enough to be found.
    pub fn checked(&self) -> &Checked
        ensures checked { result.now ≡ self.now.checked }
        ensures accepted { task_refusal self.now.checked.side self.now.checked.task ≡ None }
        ensures few { step_count self.now.checked.task ≤ step_count_limit }
    {
        &self.checked
    }

    /// The ground task.
    pub fn ground_task(&self) -> &GroundTask
        ensures { result.now ≡ self.now.ground_task }
    {
        &self.ground_task
    }

    /// The weights of the metric, by which the ground task can be compiled.
    pub fn weights(&self) -> &Weights
        ensures weights { result.now ≡ self.now.weights }
        ensures ready { IsReady self.now.ground_task self.now.weights }
    {
        &self.weights
    }

    /// Hands out its parts, of which the ground task can be compiled by the weights.
    pub fn into_parts(self) -> (Checked, GroundTask, Weights)
        ensures checked { result.0 ≡ self.checked }
        ensures ground_task { result.1 ≡ self.ground_task }
        ensures weights { result.2 ≡ self.weights }
        ensures ready { IsReady result.1 result.2 }
    {
        let Whole {
            checked,
            ground_task,
            weights,
        } = self;
        (checked, ground_task, weights)
    }

    /// What all plans of the task are judged by.
    pub fn grounded(&self) -> Grounded<'_>
        ensures checked { result.checked.now ≡ self.now.checked }
        ensures ground_task { result.ground_task.now ≡ self.now.ground_task }
        ensures weights { result.weights.now ≡ self.now.weights }
        ensures left_out { LeavesOutOnlyUnfit self.now.checked.task self.now.ground_task }
    {
        Grounded {
            checked: &self.checked,
            ground_task: &self.ground_task,
            weights: &self.weights,
        }
    }

    /// The run of no step of the task, with the memory that it ever needs.
    ///
    /// # Errors
    ///
    /// Want of memory.
    pub fn begin<'a>(&'a self, alloc: Global) -> Result<Run<'a>, NoMemory>
        ensures task { BelongTogether
            self.now.checked.task self.now.ground_task self.now.weights }
        ensures left_out { LeavesOutOnlyUnfit self.now.checked.task self.now.ground_task }
        ensures begun { IfOk result
            (λ run. run ≡ begun self.now.ground_task self.now.weights) }
    {
        Run::open(alloc, &self.ground_task, &self.weights)
    }
}
