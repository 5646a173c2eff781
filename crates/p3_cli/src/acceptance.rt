//! From the texts of a task to the task with its weights, and with its ground task, where nothing is
//! refused.

ghost use Rattle.std.specs.Prelude.{◌≡◌, ◌≤◌, ◌⊎◌, IfOk, IfErr, OnOk, None, Some};
ghost use Rattle.p3_task.specs.Limits.{step_count};
ghost use Rattle.p3_task.specs.Offences.{WellFormed};
ghost use Rattle.p3_task.specs.PlanTexts.{plan_offence};
ghost use Rattle.p3_task.specs.Sides.{step_count_limit};
ghost use Rattle.p3_plans.specs.Drafts.{IfRefused};
ghost use Rattle.p3_eval.specs.Steps.{AreOfPlan, AreStepsOf, OfPlanText};
ghost use Rattle.p3_cli.specs.Refusing.{
  AreAcceptedFor,
  EndsAs,
  IsOfHalves,
  IsOfPlan,
  IsOfTask,
  IsRefusedFor,
  IsSpelled,
};
ghost use Rattle.p3_cli.specs.Texts.{all_texts, task_texts};
ghost use Rattle.p3_cli.specs.Translation.{CanBeCompiled};

use crate::Ending;
use crate::texts::Texts;
use p3_base::Side;
use p3_eval::{Accepted, Steps, Whole, WholeFail};
use p3_outline::ReadFail;
use p3_plans::{PlanFail, first_plan_offence};
use p3_syntax::{read_domain, read_problem};
use p3_task::Task;
use p3_types::{CheckFail, Checked, check};
use std::alloc::Global;

/// Reads the task that the texts of a side spell, where they show no refusal by themselves.
#[tactic(auto, using(crate::proofs::SpelledLemmas::halves_spell))]
pub(crate) fn spelled_task(alloc: Global, side: Side, texts: &Texts) -> Result<Task, Ending>
    ensures spelled { IfOk result (IsSpelled (task_texts side (all_texts texts.now))) }
    ensures err { IfErr result
        (IsRefusedFor (all_texts texts.now) (IsOfHalves side (all_texts texts.now))) }
{
    let domain = match read_domain(alloc, side, texts.domain_of(side)) {
        Ok(half) => half,
        Err(fail) => return Err(not_read(texts, fail)),
    };
    let problem = match read_problem(alloc, side, texts.problem_of(side)) {
        Ok(half) => half,
        Err(fail) => {
            drop(domain);
            return Err(not_read(texts, fail));
        }
    };
    Ok(Task { domain, problem })
}

/// Gives the ending of a command whose task is refused so: an offence of the plan is told before.
pub(crate) fn behind_plan(texts: &Texts, ending: Ending) -> Ending
    ensures { ((plan_offence texts.now.plan.items ≡ None) × (result ≡ ending))
        ⊎ IsRefusedFor (all_texts texts.now) (IsOfPlan (all_texts texts.now)) result }
{
    match first_plan_offence(texts.plan()) {
        None => ending,
        Some(refusal) => texts.refused(&refusal),
    }
}

/// Finds the steps of the plan, for a task of which nothing is refused.
pub(crate) fn steps_of(alloc: Global, texts: &Texts, checked: &Checked) -> Result<Steps, Ending>
    requires few { step_count checked.now.task ≤ step_count_limit }
    ensures are { IfOk result (λ steps. OfPlanText texts.now.plan.items
        (λ plan. AreStepsOf checked.now.task plan steps)) }
    ensures some { IfOk result (AreOfPlan checked.now.task) }
    ensures free { OnOk result (plan_offence texts.now.plan.items ≡ None) }
    ensures err { IfErr result
        (IsRefusedFor (all_texts texts.now) (IsOfPlan (all_texts texts.now))) }
{
    match Steps::of_text(alloc, checked, texts.plan()) {
        Ok(steps) => Ok(steps),
        Err(fail) => Err(not_planned(texts, fail)),
    }
}

/// Gives the ending where a plan was not read.
fn not_planned(texts: &Texts, fail: PlanFail) -> Ending
    requires { IfRefused fail
        (λ refusal. plan_offence texts.now.plan.items ≡ Some refusal) }
    ensures { IsRefusedFor (all_texts texts.now) (IsOfPlan (all_texts texts.now)) result }
{
    match fail {
        PlanFail::Refused(refusal) => texts.refused(&refusal),
        PlanFail::NoMemory => Ending::OutOfMemory,
    }
}

/// Accepts the task of a side with its weights, where nothing is refused of it.
pub(crate) fn accepted(
    alloc: Global,
    side: Side,
    texts: &Texts,
    task: Task,
) -> Result<Accepted, Ending>
    requires { IsSpelled (task_texts side (all_texts texts.now)) task }
    ensures accepted { IfOk result (λ accepted.
        AreAcceptedFor side (all_texts texts.now) accepted.checked.task) }
    ensures err { IfErr result
        (IsRefusedFor (all_texts texts.now) (IsOfTask side (all_texts texts.now))) }
{
    let checked = checked(alloc, side, texts, task)?;
    match Accepted::accept(alloc, checked) {
        Ok(accepted) => Ok(accepted),
        Err(WholeFail::Refused(refusal)) => Err(texts.refused(&refusal)),
        Err(WholeFail::NoMemory) => Err(Ending::OutOfMemory),
    }
}

/// Accepts it with its ground task too, by which it can be compiled.
pub(crate) fn grounded(
    alloc: Global,
    side: Side,
    texts: &Texts,
    task: Task,
) -> Result<Whole, Ending>
    requires { IsSpelled (task_texts side (all_texts texts.now)) task }
    ensures accepted { IfOk result (λ whole.
        AreAcceptedFor side (all_texts texts.now) whole.checked.task) }
    ensures ready { IfOk result (λ whole.
        CanBeCompiled whole.checked.task whole.ground_task whole.weights) }
    ensures err { IfErr result
        (IsRefusedFor (all_texts texts.now) (IsOfTask side (all_texts texts.now))) }
{
    let checked = checked(alloc, side, texts, task)?;
    match Whole::accept(alloc, checked) {
        Ok(whole) => Ok(whole),
        Err(WholeFail::Refused(refusal)) => Err(texts.refused(&refusal)),
        Err(WholeFail::NoMemory) => Err(Ending::OutOfMemory),
    }
}

/// Checks the task that the texts spell: it is well-formed, or refused.
fn checked(alloc: Global, side: Side, texts: &Texts, task: Task) -> Result<Checked, Ending>
    requires { IsSpelled (task_texts side (all_texts texts.now)) task }
    ensures spelled { IfOk result (λ checked.
        IsSpelled (task_texts side (all_texts texts.now)) checked.task) }
    ensures side { IfOk result (λ checked. checked.side ≡ side) }
    ensures well_formed { IfOk result (λ checked. WellFormed checked.task) }
    ensures err { IfErr result
        (IsRefusedFor (all_texts texts.now) (IsOfTask side (all_texts texts.now))) }
{
    let Task { domain, problem } = task;
    match check(alloc, side, domain, problem) {
        Ok(checked) => Ok(checked),
        Err(CheckFail::Refused(refusal)) => Err(texts.refused(&refusal)),
        Err(CheckFail::NoMemory) => Err(Ending::OutOfMemory),
    }
}

/// Gives the ending where a half was not read.
fn not_read(texts: &Texts, fail: ReadFail) -> Ending
    ensures { EndsAs (all_texts texts.now) fail result }
{
    match fail {
        ReadFail::Refused(refusal) => texts.refused(&refusal),
        ReadFail::NoMemory => Ending::OutOfMemory,
    }
}
