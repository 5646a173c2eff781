//! The steps as which written steps count, in order.

ghost use Rattle.std.specs.Prelude.{
  ◌≡◌,
  ◌<◌,
  ◌≤◌,
  [],
  ◌++◌,
  None,
  IfOk,
  IfSome,
  OnOk,
  option_and_then,
  slice_get,
};
ghost use Rattle.std.specs.List.{All, cons_option};
ghost use Rattle.p3_task.specs.Lifting.{lifted_step, steps as all_steps};
ghost use Rattle.p3_task.specs.Limits.{step_count as count_of_steps};
ghost use Rattle.p3_task.specs.Sides.{step_count_limit};
ghost use Rattle.p3_task.specs.StepNumbers.{HasNumber};
ghost use Rattle.p3_task.specs.declared.task.Step.{Step};
ghost use Rattle.p3_eval.specs.Steps.{AreOfPlan};
ghost use Rattle.p3_lift.specs.Judging.{AreCopied};
ghost use Rattle.p3_lift.specs.Lifting.{numbered_steps};

use crate::names::counted_step;
use p3_base::{List, NoMemory};
use p3_eval::Steps;
use p3_task::Plan;
use p3_types::Checked;
use std::alloc::Global;

/// Finds the steps as which the steps of a written plan count, as far as these have numbers; the
/// others are dropped. Each is found by its name, so the time grows with the length of the plan
/// alone.
pub(crate) fn copied_steps(
    alloc: Global,
    source: &Checked,
    written: &Checked,
    steps: &Steps,
) -> Result<Steps, NoMemory>
    requires source { count_of_steps source.now.task ≤ step_count_limit }
    requires written { count_of_steps written.now.task ≤ step_count_limit }
    requires some { AreOfPlan written.now.task steps.now }
    ensures counted { IfOk result (λ copied. AreCopied
        source.now.task written.now.task steps.now.numbers.items copied.numbers.items) }
    ensures whole { IfOk result (λ copied. copied.rest ≡ None) }
{
    let numbers = copied_numbers(alloc, source, written, steps.numbers.as_slice())?;
    Ok(Steps {
        numbers,
        rest: None,
    })
}

/// Finds the numbers of the steps as which the written steps of these numbers count.
fn copied_numbers(
    alloc: Global,
    source: &Checked,
    written: &Checked,
    numbers: &[u32],
) -> Result<Vec<u32>, NoMemory>
    requires source { count_of_steps source.now.task ≤ step_count_limit }
    requires written { count_of_steps written.now.task ≤ step_count_limit }
    requires within { All (λ number. number < count_of_steps written.now.task) numbers.now }
    ensures { IfOk result (λ copied.
        AreCopied source.now.task written.now.task numbers.now copied.items) }
{
    let mut copied = Vec::new(alloc);
    for number in numbers {
        let counted = copied_number(alloc, source, written, *number)?;
        push_number(&mut copied, counted)?;
    }
    Ok(copied)
}

/// Finds the number of the step as which the written step of that number counts, if it does.
fn copied_number(
    alloc: Global,
    source: &Checked,
    written: &Checked,
    number: u32,
) -> Result<Option<u32>, NoMemory>
    requires source { count_of_steps source.now.task ≤ step_count_limit }
    requires written { count_of_steps written.now.task ≤ step_count_limit }
    requires within { number < count_of_steps written.now.task }
    ensures counts { IfOk result (λ counted. (step : Step) → HasNumber written.now.task step number
        → lifted_step source.now.task step
        ≡ option_and_then (slice_get (all_steps source.now.task)) counted) }
    ensures within { IfOk result (λ counted.
        IfSome counted (λ number. number < count_of_steps source.now.task)) }
{
    let step = written.step(alloc, number)?;
    let counted = counted_step(source, &step);
    drop(step);
    Ok(counted)
}

/// Puts the number behind the others, where there is one.
fn push_number(numbers: &mut Vec<u32>, number: Option<u32>) -> Result<(), NoMemory>
    ensures { OnOk result (numbers.new.items ≡ numbers.old.items ++ cons_option number []) }
{
    if let Some(number) = number {
        numbers.push(number)?;
    }
    Ok(())
}

/// Gives the steps of these numbers.
pub(crate) fn plan_of(alloc: Global, task: &Checked, numbers: &[u32]) -> Result<Plan, NoMemory>
    requires few { count_of_steps task.now.task ≤ step_count_limit }
    requires within { All (λ number. number < count_of_steps task.now.task) numbers.now }
    ensures { IfOk result (λ plan. plan ≡ numbered_steps task.now.task numbers.now) }
{
    let mut plan = List::new(alloc);
    for number in numbers {
        let step = task.step(alloc, *number)?;
        plan.push(step)?;
    }
    Ok(plan)
}
