//! The steps of a plan by their numbers.

ghost use Rattle.std.specs.Prelude.{◌≡◌, ◌++◌, ◌∷◌, ◌≤◌, [], OnOk};
ghost use Rattle.p3_run.specs.Runs.{most_steps};
ghost use Rattle.p3_eval.specs.Judged.{found_count};

use p3_base::NoMemory;
use p3_plans::{NextStep, PlanFail, PlanReader};
use p3_task::Step;
use p3_types::{Checked, Found};
use std::alloc::Global;

/// The steps of a plan by their numbers, until one has none.
#[derive(Drop)]
pub struct Steps {
    /// The numbers.
    pub numbers: Vec<u32>,
    /// As what the step behind them is found, where the plan goes on with one that has no number.
    pub rest: Option<Found>,
    pub ghost few: { found_count numbers.items rest ≤ most_steps },
}

/// Puts a number last.
fn push(numbers: &mut Vec<u32>, number: u32) -> Result<(), NoMemory>
    ensures { OnOk result (numbers.new.items ≡ numbers.old.items ++ number ∷ []) }
{
    numbers.push(number)?;
    Ok(())
}

impl Steps {
    ghost use Rattle.std.specs.Prelude.{◌≡◌, IfErr, IfOk, None, OnOk, Some, length};
    ghost use Rattle.p3_task.specs.Limits.{step_count};
    ghost use Rattle.p3_task.specs.PlanTexts.{plan_offence};
    ghost use Rattle.p3_task.specs.Sides.{plan_byte_limit, step_count_limit};
    ghost use Rattle.p3_plans.specs.Drafts.{IfRefused};
    ghost use Rattle.p3_eval.specs.Steps.{AreOfPlan, AreStepsOf, OfPlanText};

    /// Finds the steps of the plan of a text, which is read once.
    ///
    /// # Errors
    ///
    /// The first offence of the text, or want of memory.
    pub fn of_text(alloc: Global, task: &Checked, text: &[u8]) -> Result<Steps, PlanFail>
        requires few { step_count task.now.task ≤ step_count_limit }
        requires short { length text.now ≤ plan_byte_limit }
        ensures are { IfOk result (λ steps.
            OfPlanText text.now (λ plan. AreStepsOf task.now.task plan steps)) }
        ensures some { IfOk result (AreOfPlan task.now.task) }
        ensures free { OnOk result (plan_offence text.now ≡ None) }
        ensures refused { IfErr result (λ fail.
            IfRefused fail (λ refusal. plan_offence text.now ≡ Some refusal)) }
    {
        let mut numbers = Vec::new(alloc);
        let mut reader = PlanReader::new(text);
        loop {
            match reader.next() {
                NextStep::Step(slice) => match task.find_text(slice.text) {
                    Found::Number(number) => push(&mut numbers, number)?,
                    found => match reader.offence() {
                        None => {
                            return Ok(Steps {
                                numbers,
                                rest: Some(found),
                            });
                        }
                        Some(refusal) => return Err(PlanFail::Refused(refusal)),
                    },
                },
                NextStep::End => {
                    return Ok(Steps {
                        numbers,
                        rest: None,
                    });
                }
                NextStep::Bad(refusal) => return Err(PlanFail::Refused(refusal)),
            }
        }
    }

    /// Finds the steps of a plan.
    pub fn of_plan(alloc: Global, task: &Checked, plan: &[Step]) -> Result<Steps, NoMemory>
        requires few { step_count task.now.task ≤ step_count_limit }
        requires room { length plan.now ≤ most_steps }
        ensures { IfOk result (AreStepsOf task.now.task plan.now) }
    {
        let mut numbers = Vec::new(alloc);
        for step in plan {
            match task.find(step) {
                Found::Number(number) => numbers.push(number)?,
                found => {
                    return Ok(Steps {
                        numbers,
                        rest: Some(found),
                    });
                }
            }
        }
        Ok(Steps {
            numbers,
            rest: None,
        })
    }
}
