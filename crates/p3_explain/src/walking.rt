//! The steps of a plan, done one after another, while the operators are marked.

ghost use Rattle.std.specs.Prelude.{◌≡◌, ◌+◌, ◌<◌, ◌≤◌, ◌++◌, [], None, length, IfErr, IfOk, IsTrue, OnOk};
ghost use Rattle.std.specs.List.{All, list_all};
ghost use Rattle.std.specs.Option.{option_copied};
ghost use Rattle.p3_formula.specs.Targets.{is_sized_change};
ghost use Rattle.p3_run.specs.Runs.{CanBeRun, ground_state, most_steps};
ghost use Rattle.p3_run.specs.Steps.{HasBodyBelow, IsByNumber};
ghost use Rattle.p3_marks.specs.Marked.{CanFollow, followed};
ghost use Rattle.p3_marks.specs.Reasons.{pref_reasons};
ghost use Rattle.p3_eval.specs.Judged.{HasDone, NamesMisfitOfFound, TellsOfFound, ran_with};
ghost use Rattle.p3_eval.specs.Steps.{OfItsSteps};
ghost use Rattle.p3_explain.specs.Explaining.{IsExplainFail};
ghost use Rattle.p3_explain.specs.Walked.{IsMarked, kept_of};

use crate::ExplainFail;
use p3_base::{List, NoMemory, Reason};
use p3_eval::{PlanFault, Run, Steps};
use p3_formula::{GroundStep, GroundTask};
use p3_marks::{OperatorMarks, push_false_prefs};
use p3_run::step_at;
use p3_types::Found;

/// The step that is found so, where it is kept.
fn kept_step(task: &GroundTask, found: Found) -> Option<&GroundStep>
    requires { IsByNumber task.now.steps }
    ensures { option_copied result ≡ kept_of task.now found }
{
    match found {
        Found::Number(number) => step_at(task.steps.items(), number),
        Found::UnknownAction => None,
        Found::Arguments => None,
    }
}

/// Puts the reasons of the preferences of the next step that are false before it.
fn look(prefs: &mut List<Reason>, run: &Run<'_>, step: &GroundStep) -> Result<(), NoMemory>
    requires room { length run.now.plan < most_steps }
    requires below { All (HasBodyBelow (length (ground_state run.now.task run.now.plan)))
        step.now.prefs }
    ensures { OnOk result (prefs.new ≡ prefs.old ++ pref_reasons
        (ground_state run.now.task run.now.plan) (length run.now.plan + 1) step.now.prefs) }
{
    let number = run.steps() + 1;
    push_false_prefs(prefs, step.prefs.items(), run.state(), number)
}

/// The operators that read what the last step names are in one state more.
fn mark(marks: &mut OperatorMarks, run: &Run<'_>, task: &GroundTask, step: &GroundStep)
    requires can { CanFollow task.now marks.old }
    requires bits { length (ground_state run.now.task run.now.plan) ≡ task.now.atoms }
    requires sized { IsTrue (list_all
        (is_sized_change (length (ground_state run.now.task run.now.plan))) step.now.effects) }
    ensures { marks.new ≡ followed task.now (length run.now.plan)
        (ground_state run.now.task run.now.plan) step.now.effects marks.old }
{
    let next = run.steps();
    marks.follow(task, step.effects.items(), run.state(), next);
}

/// Does the step that is found so, where it fits, and marks the operators.
fn walk_step(
    run: &mut Run<'_>,
    marks: &mut OperatorMarks,
    prefs: &mut List<Reason>,
    task: &GroundTask,
    found: Found,
) -> Result<Option<PlanFault>, NoMemory>
    requires task { task.now ≡ run.old.task }
    requires can { CanBeRun run.old.task run.old.weights }
    requires room { length run.old.plan < most_steps }
    requires marked { IsMarked run.old marks.old prefs.old }
    ensures told { IfOk result (TellsOfFound run.old found) }
    ensures misfit { IfOk result (NamesMisfitOfFound run.old found) }
    ensures ran { IfOk result (λ fault. run.new ≡ ran_with run.old found fault) }
    ensures marked { IfOk result (λ fault.
        fault ≡ None → IsMarked run.new marks.new prefs.new) }
{
    let Some(step) = kept_step(task, found) else {
        return Ok(run.follow(found));
    };
    look(prefs, run, step)?;
    match run.follow(found) {
        Some(fault) => Ok(Some(fault)),
        None => {
            mark(marks, run, task, step);
            Ok(None)
        }
    }
}

/// Does steps until one does not fit, and marks the operators.
pub(crate) fn walk(
    run: &mut Run<'_>,
    marks: &mut OperatorMarks,
    prefs: &mut List<Reason>,
    task: &GroundTask,
    steps: &Steps,
) -> Result<(), ExplainFail>
    requires task { task.now ≡ run.old.task }
    requires can { CanBeRun run.old.task run.old.weights }
    requires begun { run.old.plan ≡ [] }
    requires marked { IsMarked run.old marks.old prefs.old }
    ensures task { OnOk result (task.now ≡ run.new.task) }
    ensures weights { OnOk result (run.new.weights ≡ run.old.weights) }
    ensures few { OnOk result (length run.new.plan ≤ most_steps) }
    ensures marked { OnOk result (IsMarked run.new marks.new prefs.new) }
    ensures done { OnOk result
        (OfItsSteps run.old steps.now (λ T plan. HasDone T plan run.old run.new)) }
    ensures fail { IfErr result (λ fail.
        OfItsSteps run.old steps.now (λ T plan. IsExplainFail T plan fail)) }
{
    for number in steps.numbers.as_slice() {
        if let Some(fault) = walk_step(run, marks, prefs, task, Found::Number(*number))? {
            return Err(ExplainFail::Fault(fault));
        }
    }
    if let Some(found) = steps.rest {
        // It has no number, so it does not fit.
        if let Some(fault) = walk_step(run, marks, prefs, task, found)? {
            return Err(ExplainFail::Fault(fault));
        }
    }
    Ok(())
}
