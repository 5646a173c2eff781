//! A task with a ground task that has some of its steps.

ghost use Rattle.std.specs.Prelude.{◌≡◌, ◌≤◌, None, IfOk, IsTrue};
ghost use Rattle.p3_task.specs.Limits.{step_count};
ghost use Rattle.p3_task.specs.Refusals.First.{task_refusal};
ghost use Rattle.p3_task.specs.Sides.{step_count_limit};
ghost use Rattle.p3_ground.specs.StandsFor.{StandsIn};
ghost use Rattle.p3_metric.specs.Weighed.{HasWeights};
ghost use Rattle.p3_run.specs.Runs.{begun};
ghost use Rattle.p3_eval.specs.Accepted.{is_accepted};
ghost use Rattle.p3_eval.specs.Runs.{BelongTogether};

use crate::Run;
use p3_base::NoMemory;
use p3_formula::{GroundTask, Weights};
use p3_types::Checked;
use std::alloc::Global;

/// A checked task of which nothing is refused, with its weights and a ground task that stands for it
/// in the steps that it has: what plans of these steps are judged by.
#[derive(Clone, Copy)]
pub struct Grounded<'a> {
    pub(crate) checked: &'a Checked,
    pub(crate) ground_task: &'a GroundTask,
    pub(crate) weights: &'a Weights,
    pub ghost standing: { ∥ StandsIn checked.now.task ground_task.now ∥₁ },
    pub ghost weighing: { ∥ HasWeights checked.now.task weights.now ∥₁ },
    pub ghost accepted: { IsTrue (is_accepted checked.now.side checked.now.task) },
}

impl<'a> Grounded<'a> {
    /// The checked task. Nothing is refused of it, so its steps are few enough to be found.
    pub fn checked(&self) -> &'a Checked
        ensures checked { result.now ≡ self.now.checked.now }
        ensures accepted { task_refusal result.now.side result.now.task ≡ None }
        ensures few { step_count result.now.task ≤ step_count_limit }
    {
        self.checked
    }

    /// The ground task.
    pub fn ground_task(&self) -> &'a GroundTask
        ensures { result.now ≡ self.now.ground_task.now }
    {
        self.ground_task
    }

    /// The weights of the metric.
    pub fn weights(&self) -> &'a Weights
        ensures { result.now ≡ self.now.weights.now }
    {
        self.weights
    }

    /// The run of no step of the task, with the memory that it ever needs.
    ///
    /// # Errors
    ///
    /// Want of memory.
    pub fn begin(&self, alloc: Global) -> Result<Run<'a>, NoMemory>
        ensures task { BelongTogether
            self.now.checked.now.task self.now.ground_task.now self.now.weights.now }
        ensures begun { IfOk result
            (λ run. run ≡ begun self.now.ground_task.now self.now.weights.now) }
    {
        Run::open(alloc, self.ground_task, self.weights)
    }
}
