//! The step of a number in the text of a plan.

ghost use Rattle.std.specs.Prelude.{◌≡◌, ◌∷◌, ◌≤◌, [], length, slice_get, IfOk, Some};
ghost use Rattle.p3_task.specs.PlanTexts.{IsPlanText};
ghost use Rattle.p3_task.specs.Sides.{plan_byte_limit};
ghost use Rattle.p3_task.specs.declared.task.Step.{Step as Words};
ghost use Rattle.p3_plans.specs.Laws.{all_of};
ghost use Rattle.p3_plans.specs.Steps.{StepText};
ghost use Rattle.p3_inapplicable.specs.Places.{slice_of};

use p3_base::{List, Name, NoMemory};
use p3_plans::{NextStep, PlanFail, PlanReader, PlanStep, read_plan};
use p3_task::{Plan, Step};
use std::alloc::Global;

/// Finds the step at a place of a plan's text, counted from 0: the whole text where none stands
/// there. It takes no memory.
pub(crate) fn step_slice(text: &[u8], place: u32) -> PlanStep<'_>
    requires short { length text.now ≤ plan_byte_limit }
    ensures within { length result.text.now ≤ length text.now }
    ensures given { (entry : StepText)
        → slice_get (all_of text.now).steps place ≡ Some entry → slice_of result ≡ entry }
{
    let mut reader = PlanReader::new(text);
    for _passed in 0..place {
        let _step = reader.next();
    }
    match reader.next() {
        NextStep::Step(step) => step,
        NextStep::End => PlanStep { text, offset: 0 },
        NextStep::Bad(_) => PlanStep { text, offset: 0 },
    }
}

/// Reads the words of a step from its text. A text of no step has none.
pub(crate) fn step_words(alloc: Global, text: &[u8]) -> Result<Step, NoMemory>
    requires short { length text.now ≤ plan_byte_limit }
    ensures { IfOk result (λ words. (step : Words)
        → IsPlanText text.now (step ∷ []) → words ≡ step) }
{
    match read_plan(alloc, text) {
        Ok(plan) => first_words(alloc, plan),
        Err(PlanFail::Refused(_)) => no_words(alloc),
        Err(PlanFail::NoMemory) => Err(NoMemory),
    }
}

/// Takes the words of the step of a plan.
fn first_words(alloc: Global, plan: Plan) -> Result<Step, NoMemory>
    ensures { IfOk result (λ words. (step : Words) → plan ≡ step ∷ [] → words ≡ step) }
{
    let mut steps = plan.into_items();
    match steps.pop() {
        Some(step) => Ok(step),
        None => no_words(alloc),
    }
}

/// Makes a step without words.
fn no_words(alloc: Global) -> Result<Step, NoMemory> {
    let action = Name::of(alloc, b"".as_slice())?;
    let args = List::new(alloc);
    Ok(Step { action, args })
}
