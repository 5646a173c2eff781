//! Why a plan satisfies its constraints and preferences, or does not.

ghost use Rattle.std.specs.Prelude.{◌≡◌, ◌+◌, ◌≤◌, ◌++◌, None, length, option_map, IfErr, IfOk, IfSome, IsTrue, OnOk};
ghost use Rattle.std.specs.List.{All};
ghost use Rattle.p3_task.specs.Explanations.{reasons};
ghost use Rattle.p3_task.specs.PlanTexts.{step_limit};
ghost use Rattle.p3_task.specs.Plans.{steps_fit};
ghost use Rattle.p3_task.specs.Validity.{first_fault, step_fault};
ghost use Rattle.p3_ground.specs.StandsFor.{LeftOutAt};
ghost use Rattle.p3_run.specs.Runs.{begun, most_steps};
ghost use Rattle.p3_marks.specs.Marked.{shown_all};
ghost use Rattle.p3_eval.specs.Judged.{HasDone, HasItsStep, fault_in};
ghost use Rattle.p3_eval.specs.Runs.{OfItsPlan};
ghost use Rattle.p3_eval.specs.Steps.{OfSteps};
ghost use Rattle.p3_explain.specs.Explaining.{IsExplainFail};
ghost use Rattle.p3_explain.specs.Walked.{IsMarked};

use crate::ExplainFail;
use crate::walking::walk;
use p3_base::{List, NoMemory, Reason};
use p3_eval::{Grounded, PlanFault, Run, Steps, Whole};
use p3_formula::GroundTask;
use p3_marks::OperatorMarks;
use p3_task::Plan;
use std::alloc::Global;

/// What is told of a plan whose steps fit.
#[derive(Debug, Drop)]
pub struct Explanation {
    /// The first fault of the plan, if it has one: it is valid where it has none.
    pub fault: Option<PlanFault>,
    /// The states that show why its constraints and preferences are satisfied or not.
    pub reasons: List<Reason>,
}

/// What is told of a plan whose steps fit, with the run that has done them.
#[derive(Drop)]
pub struct Explained<'a> {
    /// What is told of it.
    pub explanation: Explanation,
    /// The run that has done its steps.
    pub run: Run<'a>,
}

/// Explains a plan whose steps fit: for each hard constraint, for each operator of the preference
/// instances, and for each false precondition preference of a step, the states that show it.
///
/// # Errors
///
/// The first step that does not fit. And want of memory.
pub fn explain(alloc: Global, whole: &Whole, plan: &Plan) -> Result<List<Reason>, ExplainFail>
    requires few { length plan.now ≤ step_limit }
    ensures reasons { IfOk result (λ found. found ≡ reasons whole.now.checked.task plan.now) }
    ensures fits { OnOk result (step_fault whole.now.checked.task plan.now ≡ None) }
    ensures fail { IfErr result (IsExplainFail whole.now.checked.task plan.now) }
{
    let steps = Steps::of_plan(alloc, whole.checked(), plan.items())?;
    let grounded = whole.grounded();
    match explain_steps(alloc, &grounded, &steps) {
        Ok(Explanation { fault: _, reasons }) => Ok(reasons),
        Err(fail) => Err(fail),
    }
}

/// Explains steps that fit, and judges their plan in the same run. A step costs about what it costs
/// to judge it, and what the operators that read its changes cost.
///
/// # Errors
///
/// The first step that does not fit. And want of memory.
pub fn explain_steps(
    alloc: Global,
    grounded: &Grounded<'_>,
    steps: &Steps,
) -> Result<Explanation, ExplainFail>
    requires asked { All (LeftOutAt grounded.now.checked.now.task grounded.now.ground_task.now)
        steps.now.numbers.items }
    ensures reasons { IfOk result (λ found. OfSteps grounded.now.checked.now.task steps.now
        (λ plan. found.reasons ≡ reasons grounded.now.checked.now.task plan)) }
    ensures fault { IfOk result (λ found. OfSteps grounded.now.checked.now.task steps.now
        (λ plan. first_fault grounded.now.checked.now.task plan
        ≡ option_map fault_in found.fault)) }
    ensures placed { IfOk result (λ found. IfSome found.fault HasItsStep) }
    ensures fit { OnOk result (OfSteps grounded.now.checked.now.task steps.now
        (λ plan. IsTrue (steps_fit grounded.now.checked.now.task plan))) }
    ensures fail { IfErr result (λ fail. OfSteps grounded.now.checked.now.task steps.now
        (λ plan. IsExplainFail grounded.now.checked.now.task plan fail)) }
{
    match explained_run(alloc, grounded, steps) {
        Ok(Explained { explanation, run }) => {
            drop(run);
            Ok(explanation)
        }
        Err(fail) => Err(fail),
    }
}

/// Explains steps that fit, and gives the run that has done them: what more is to be told of their
/// plan needs no second run.
///
/// # Errors
///
/// The first step that does not fit. And want of memory.
pub fn explained_run<'a>(
    alloc: Global,
    grounded: &Grounded<'a>,
    steps: &Steps,
) -> Result<Explained<'a>, ExplainFail>
    requires asked { All (LeftOutAt grounded.now.checked.now.task grounded.now.ground_task.now)
        steps.now.numbers.items }
    ensures reasons { IfOk result (λ found. OfSteps grounded.now.checked.now.task steps.now
        (λ plan. found.explanation.reasons ≡ reasons grounded.now.checked.now.task plan)) }
    ensures fault { IfOk result (λ found. OfSteps grounded.now.checked.now.task steps.now
        (λ plan. first_fault grounded.now.checked.now.task plan
        ≡ option_map fault_in found.explanation.fault)) }
    ensures placed { IfOk result (λ found. IfSome found.explanation.fault HasItsStep) }
    ensures fit { OnOk result (OfSteps grounded.now.checked.now.task steps.now
        (λ plan. IsTrue (steps_fit grounded.now.checked.now.task plan))) }
    ensures task { IfOk result (λ found. found.run.task ≡ grounded.now.ground_task.now) }
    ensures weights { IfOk result (λ found. found.run.weights ≡ grounded.now.weights.now) }
    ensures few { IfOk result (λ found. length found.run.plan ≤ most_steps) }
    ensures done { IfOk result (λ found. OfSteps grounded.now.checked.now.task steps.now
        (λ plan. HasDone grounded.now.checked.now.task plan
        (begun grounded.now.ground_task.now grounded.now.weights.now) found.run)) }
    ensures fail { IfErr result (λ fail. OfSteps grounded.now.checked.now.task steps.now
        (λ plan. IsExplainFail grounded.now.checked.now.task plan fail)) }
{
    let task = grounded.ground_task();
    let mut run = grounded.begin(alloc)?;
    let mut marks = OperatorMarks::open(alloc, task)?;
    let mut prefs = List::new(alloc);
    match walk(&mut run, &mut marks, &mut prefs, task, steps) {
        Ok(()) => {
            let reasons = gathered(alloc, &run, &marks, &prefs, task)?;
            let fault = run.judge();
            let explanation = Explanation { fault, reasons };
            Ok(Explained { explanation, run })
        }
        Err(fail) => Err(fail),
    }
}

/// The reasons that the marks of a run show, and behind them those of the false preferences.
fn gathered(
    alloc: Global,
    run: &Run<'_>,
    marks: &OperatorMarks,
    prefs: &List<Reason>,
    task: &GroundTask,
) -> Result<List<Reason>, NoMemory>
    requires task { task.now ≡ run.now.task }
    requires few { length run.now.plan ≤ most_steps }
    requires marked { IsMarked run.now marks.now prefs.now }
    ensures found { IfOk result (λ found. found ≡ shown_all run.now.task
        (length run.now.plan + 1) marks.now.groups ++ prefs.now) }
    ensures fit { OfItsPlan run.now (λ T plan. IsTrue (steps_fit T plan)) }
{
    let count = run.steps() + 1;
    let mut reasons = marks.reasons(alloc, task, count)?;
    append(&mut reasons, prefs.items())?;
    Ok(reasons)
}

/// Puts more reasons behind the others.
fn append(reasons: &mut List<Reason>, more: &[Reason]) -> Result<(), NoMemory>
    ensures { OnOk result (reasons.new ≡ reasons.old ++ more.now) }
{
    for reason in more {
        reasons.push(*reason)?;
    }
    Ok(())
}
