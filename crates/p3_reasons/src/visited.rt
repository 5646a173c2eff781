//! The facts of the states that a plan visits.

ghost use Rattle.std.specs.Prelude.{◌≡◌, ℕ, List as Items, IfOk, OnOk};
ghost use Rattle.p3_reasons.specs.Effects.{truth_of};
ghost use Rattle.p3_reasons.specs.Visits.{step_test, test_after};

use crate::StateFacts;
use p3_base::{List, NoMemory};
use p3_numbers::NumberedTask;
use std::alloc::Global;

/// A step by number: an action at objects.
#[derive(Debug, Drop)]
pub struct PlacedStep {
    /// The place of the action.
    pub action: u32,
    /// The objects of its parameters.
    pub objects: List<u32>,
}

impl StateFacts {
    /// Does one step more: they become the facts of the state behind it. A step of no action changes
    /// nothing.
    ///
    /// # Errors
    ///
    /// Want of memory; then they are the facts of no state.
    pub fn step(
        &mut self,
        alloc: Global,
        task: &NumberedTask,
        step: &PlacedStep,
    ) -> Result<(), NoMemory>
        ensures { OnOk result ((atom : Items ℕ) → truth_of self.new atom
            ≡ step_test task.now (truth_of self.old) step.now atom) }
    {
        match task.actions.get(step.action as usize) {
            Some(action) => {
                self.follow(alloc, &task.numbers, step.objects.items(), &action.effect)
            }
            None => Ok(()),
        }
    }

    /// The facts of the state behind these steps.
    ///
    /// # Errors
    ///
    /// Want of memory.
    pub fn after(
        alloc: Global,
        task: &NumberedTask,
        steps: &[PlacedStep],
    ) -> Result<StateFacts, NoMemory>
        ensures { IfOk result (λ facts. (atom : Items ℕ) → truth_of facts atom
            ≡ test_after task.now steps.now atom) }
    {
        let mut facts = StateFacts::at_start(alloc, task)?;
        for placed in steps {
            facts.step(alloc, task, placed)?;
        }
        Ok(facts)
    }
}
