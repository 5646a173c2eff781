//! What `evaluate` makes of the texts of a task and of a plan for it.

ghost use Rattle.std.specs.Prelude.{◌≡◌, IfErr, IfOk, None, OnOk};
ghost use Rattle.std.specs.List.{All};
ghost use Rattle.p3_base.specs.declared.refusal.Side.TheVariants.{Source};
ghost use Rattle.p3_task.specs.PlanTexts.{plan_offence};
ghost use Rattle.p3_reports.specs.Faults.{fault_named};
ghost use Rattle.p3_reports.specs.Reports.{report_text};
ghost use Rattle.p3_ground.specs.StandsFor.{LeftOutAt};
ghost use Rattle.p3_eval.specs.Judged.{fault_in};
ghost use Rattle.p3_eval.specs.Steps.{AreOfPlan, AreStepsOf, OfPlanText, OfSteps};
ghost use Rattle.p3_cli.specs.Ending.{Invalid};
ghost use Rattle.p3_cli.specs.Evaluation.{
  IsEvaluation,
  IsFaultOf,
  IsRejectedPlan,
  IsReportOf,
  given_plan,
};
ghost use Rattle.p3_cli.specs.Refusing.{AreAcceptedFor, IsRefusal, IsRejectedBy};
ghost use Rattle.p3_cli.specs.Texts.{all_texts};
ghost use Rattle.p3_cli.specs.Translation.{CanBeCompiled};

use crate::Ending;
use crate::acceptance::{accepted, behind_plan, grounded, spelled_task, steps_of};
use crate::report_parts::evaluated_report;
use crate::texts::Texts;
use p3_base::Side;
use p3_eval::{Accepted, Grounded, PlanFault, Steps, Whole};
use p3_reports::Report;
use p3_watch::named_fault;
use std::alloc::Global;
use std::mem::forget;

/// Judges the plan that a text spells, for the task that the two other texts spell: the report of a
/// valid plan.
pub(crate) fn evaluate(alloc: Global, texts: &Texts) -> Result<Report, Ending>
    ensures report { IfOk result (λ report.
        IsEvaluation texts.now.domain.items texts.now.problem.items texts.now.plan.items
        (report_text report)) }
    ensures err { IfErr result (IsRejectedPlan (all_texts texts.now)) }
{
    let (accepted, steps) = judged_task(alloc, texts)?;
    let report = judged(alloc, &accepted, &steps);
    forget((accepted, steps));
    report
}

/// Accepts the task for which a plan is judged and finds the steps of that plan, where nothing is
/// refused of both. The plan is read once, for the task where that is accepted.
///
/// # Errors
///
/// The first refusal of the three texts. And want of memory.
pub fn judged_task(alloc: Global, texts: &Texts) -> Result<(Accepted, Steps), Ending>
    ensures accepted { IfOk result (λ both.
        AreAcceptedFor Source (all_texts texts.now) both.0.checked.task) }
    ensures are { IfOk result (λ both. OfPlanText texts.now.plan.items
        (λ plan. AreStepsOf both.0.checked.task plan both.1)) }
    ensures some { IfOk result (λ both. AreOfPlan both.0.checked.task both.1) }
    ensures free { OnOk result (plan_offence texts.now.plan.items ≡ None) }
    ensures err { IfErr result
        (IsRejectedBy (IsRefusal (given_plan (all_texts texts.now)) (all_texts texts.now))) }
{
    let task = spelled_task(alloc, Side::Source, texts)?;
    let accepted = match accepted(alloc, Side::Source, texts, task) {
        Ok(accepted) => accepted,
        Err(ending) => return Err(behind_plan(texts, ending)),
    };
    match steps_of(alloc, texts, accepted.checked()) {
        Ok(steps) => Ok((accepted, steps)),
        Err(ending) => {
            forget(accepted);
            Err(ending)
        }
    }
}

/// Accepts it with its ground task too, by which it can be compiled.
pub(crate) fn judged_whole(alloc: Global, texts: &Texts) -> Result<(Whole, Steps), Ending>
    ensures accepted { IfOk result (λ both.
        AreAcceptedFor Source (all_texts texts.now) both.0.checked.task) }
    ensures ready { IfOk result (λ both.
        CanBeCompiled both.0.checked.task both.0.ground_task both.0.weights) }
    ensures are { IfOk result (λ both. OfPlanText texts.now.plan.items
        (λ plan. AreStepsOf both.0.checked.task plan both.1)) }
    ensures some { IfOk result (λ both. AreOfPlan both.0.checked.task both.1) }
    ensures free { OnOk result (plan_offence texts.now.plan.items ≡ None) }
    ensures err { IfErr result
        (IsRejectedBy (IsRefusal (given_plan (all_texts texts.now)) (all_texts texts.now))) }
{
    let task = spelled_task(alloc, Side::Source, texts)?;
    let whole = match grounded(alloc, Side::Source, texts, task) {
        Ok(whole) => whole,
        Err(ending) => return Err(behind_plan(texts, ending)),
    };
    match steps_of(alloc, texts, whole.checked()) {
        Ok(steps) => Ok((whole, steps)),
        Err(ending) => {
            forget(whole);
            Err(ending)
        }
    }
}

/// Judges the plan of these steps for an accepted task: the report, where it is valid. The steps that
/// it has are grounded, and no others.
fn judged(alloc: Global, accepted: &Accepted, steps: &Steps) -> Result<Report, Ending>
    requires { AreOfPlan accepted.now.checked.task steps.now }
    ensures report { IfOk result (λ report. OfSteps accepted.now.checked.task steps.now
        (IsReportOf accepted.now.checked.task (report_text report))) }
    ensures err { IfErr result (IsRejectedBy (λ how. OfSteps accepted.now.checked.task steps.now
        (IsFaultOf accepted.now.checked.task how))) }
{
    let ground_task = accepted.ground_steps(alloc, steps.numbers.as_slice())?;
    let report = judged_by(alloc, &accepted.grounded(&ground_task), steps);
    forget(ground_task);
    report
}

/// Judges the plan of these steps, which are grounded: the report, where it is valid.
fn judged_by(alloc: Global, grounded: &Grounded<'_>, steps: &Steps) -> Result<Report, Ending>
    requires asked { All (LeftOutAt grounded.now.checked.now.task grounded.now.ground_task.now)
        steps.now.numbers.items }
    requires some { AreOfPlan grounded.now.checked.now.task steps.now }
    ensures report { IfOk result (λ report. OfSteps grounded.now.checked.now.task steps.now
        (IsReportOf grounded.now.checked.now.task (report_text report))) }
    ensures err { IfErr result (IsRejectedBy (λ how.
        OfSteps grounded.now.checked.now.task steps.now
        (IsFaultOf grounded.now.checked.now.task how))) }
{
    let mut run = grounded.begin(alloc)?;
    match run.judge_steps(steps) {
        None => Ok(Report::Evaluate(evaluated_report(alloc, grounded.checked(), &run)?)),
        Some(fault) => Err(invalid(fault)),
    }
}

/// Gives the ending that says the first fault of a plan.
pub(crate) fn invalid(fault: PlanFault) -> Ending
    ensures { IsRejectedBy (λ how. how ≡ Invalid (fault_named (fault_in fault))) result }
{
    Ending::Invalid(named_fault(&fault))
}
