//! Runs of a task, step by step, by the numbers of the steps.

ghost use Rattle.std.specs.Prelude.{◌≡◌, ◌<◌, pos, length, slice_get, Some, IfOk, IsTrue};
ghost use Rattle.p3_task.specs.Metrics.{cost, value, violated};
ghost use Rattle.p3_task.specs.Names.{Name};
ghost use Rattle.p3_task.specs.Plans.{steps_fit};
ghost use Rattle.p3_task.specs.PreferenceNames.{ordered_names};
ghost use Rattle.p3_task.specs.Validity.{first_fault};
ghost use Rattle.p3_run.specs.Runs.{begun, ground_state, most_steps, ran_after};
ghost use Rattle.p3_eval.specs.Runs.{
  HasTask,
  IsFaultOfAll,
  IsStepped,
  OfItsPlan,
  OfItsStep,
  fault_of,
};

use p3_base::NoMemory;
use p3_formula::{Bits, GroundTask, Weights};
use p3_run::{GroundRun, Stepped, Verdict};
use std::alloc::Global;
use std::marker::Model;

/// A run of the tasks for which a ground task stands: which of its steps were done. What it answers
/// is so of each of these tasks that has the weights and of which nothing is refused, and of the
/// plan of the steps done.
#[derive(Drop)]
pub struct Run<'a> {
    ground_run: GroundRun<'a>,
}

impl<'a> Model for Run<'a> {
    ghost use Rattle.std.specs.Coded.{codes};
    ghost use Rattle.p3_formula.specs.contracts.form.Form as form;
    ghost use Rattle.p3_run.specs.Runs.{Ran};

    ghost Value = { Ran };

    ghost coded = { Prim.hlevel (codes, form.the_row.coded) };

    ghost use Rattle.p3_eval.specs.Runs.{IsRun};

    ghost view = { λ run. run.ground_run };

    ghost invariant = { λ run. IsRun run.ground_run };
}

impl<'a> Run<'a> {
    /// The run of no step, with the memory that it ever needs.
    ///
    /// # Errors
    ///
    /// Want of memory.
    pub fn open(
        alloc: Global,
        task: &'a GroundTask,
        weights: &'a Weights,
    ) -> Result<Run<'a>, NoMemory>
        requires { HasTask task.now weights.now }
        ensures { IfOk result (λ run. run ≡ begun task.now weights.now) }
    {
        let ground_run = GroundRun::open(alloc, task, weights)?;
        Ok(Run { ground_run })
    }

    /// Does the step of a number, where it fits in the state behind the steps done. Where it does
    /// not, nothing has changed, and it is the first fault of each plan that goes on with it.
    pub fn step(&mut self, number: u32) -> Stepped
        requires { length self.old.plan < most_steps }
        ensures misfit { OfItsStep self.old number (IsStepped result) }
        ensures fault { OfItsStep self.old number (IsFaultOfAll result) }
        ensures ran { self.new ≡ ran_after self.old number result }
    {
        self.ground_run.step(number)
    }

    /// What the steps done are as a plan: a valid one, or its first fault.
    pub fn finish(&self) -> Verdict
        ensures { OfItsPlan self.now (λ T plan. first_fault T plan ≡ fault_of result) }
    {
        self.ground_run.finish()
    }

    /// The state that they lead to, as bits of the ground task's atoms.
    pub fn state(&self) -> &Bits
        ensures { result.now ≡ ground_state self.now.task self.now.plan }
    {
        self.ground_run.state()
    }

    /// How many steps are done. All of them fit.
    pub fn steps(&self) -> u32
        ensures count { result ≡ length self.now.plan }
        ensures fit { OfItsPlan self.now (λ T plan. IsTrue (steps_fit T plan)) }
    {
        self.ground_run.steps()
    }

    /// The total cost at the end.
    pub fn total_cost(&self) -> i128
        ensures { OfItsPlan self.now (λ T plan. result ≡ pos (cost T plan)) }
    {
        self.ground_run.total_cost()
    }

    /// The value of the metric.
    pub fn metric(&self) -> i128
        ensures { OfItsPlan self.now (λ T plan. result ≡ value T plan) }
    {
        self.ground_run.metric()
    }

    /// How often the preferences of a name are violated.
    pub fn violations(&self, name: u32) -> u64
        requires { name < self.now.task.names }
        ensures { OfItsPlan self.now (λ T plan. (word : Name)
            → slice_get (ordered_names T) name ≡ Some word → result ≡ violated T plan word) }
    {
        self.ground_run.violations(name)
    }
}
