//! What `explain` makes of the texts of a task and of a plan for it.

ghost use Rattle.std.specs.Prelude.{◌≡◌, IfErr, IfOk, IsTrue, map, option_map};
ghost use Rattle.std.specs.List.{All};
ghost use Rattle.p3_task.specs.Explanations.{reasons as reasons_of};
ghost use Rattle.p3_tree.specs.Reports.Explanations.{explained_lines};
ghost use Rattle.p3_task.specs.Plans.{steps_fit};
ghost use Rattle.p3_task.specs.Validity.{first_fault};
ghost use Rattle.p3_reports.specs.Explained.{explain_text, named_in};
ghost use Rattle.p3_reports.specs.Faults.{fault_named};
ghost use Rattle.p3_reports.specs.Reports.{report_text};
ghost use Rattle.p3_ground.specs.StandsFor.{LeftOutAt};
ghost use Rattle.p3_eval.specs.Judged.{fault_in};
ghost use Rattle.p3_eval.specs.Steps.{OfSteps};
ghost use Rattle.p3_cli.specs.Explaining.{
  IsExplained,
  IsExplanation,
  IsUnexplained,
  IsUnfit,
  TellsFail,
};
ghost use Rattle.p3_cli.specs.Refusing.{IsRejectedBy};
ghost use Rattle.p3_cli.specs.Texts.{all_texts};

use crate::Ending;
use crate::evaluation::{invalid, judged_task};
use crate::report_parts::copied;
use crate::texts::Texts;
use p3_base::{List, NoMemory, Reason};
use p3_eval::{Accepted, Grounded, PlanFault, Steps};
use p3_explain::{ExplainFail, Explanation, explain_steps, name_of};
use p3_reports::{ExplainReport, Fault, NamedReason, Report};
use p3_watch::named_fault;
use std::alloc::Global;
use std::mem::forget;

/// Explains the plan that a text spells, for the task that the two other texts spell.
pub(crate) fn explain(alloc: Global, texts: &Texts) -> Result<Report, Ending>
    ensures report { IfOk result (λ report.
        IsExplanation texts.now.domain.items texts.now.problem.items texts.now.plan.items
        (report_text report)) }
    ensures err { IfErr result (IsUnexplained (all_texts texts.now)) }
{
    let (accepted, steps) = judged_task(alloc, texts)?;
    let report = report_of(alloc, &accepted, &steps);
    forget((accepted, steps));
    report
}

/// Explains the plan of these steps of an accepted task, where each of them fits. The steps that it
/// has are grounded, and no others.
fn report_of(alloc: Global, accepted: &Accepted, steps: &Steps) -> Result<Report, Ending>
    ensures report { IfOk result (λ report. OfSteps accepted.now.checked.task steps.now
        (IsExplained accepted.now.checked.task (report_text report))) }
    ensures err { IfErr result (IsRejectedBy (λ how. OfSteps accepted.now.checked.task steps.now
        (IsUnfit accepted.now.checked.task how))) }
{
    let ground_task = accepted.ground_steps(alloc, steps.numbers.as_slice())?;
    let report = grounded_report(alloc, &accepted.grounded(&ground_task), steps);
    forget(ground_task);
    report
}

/// Explains the plan of these steps, which are grounded, where each of them fits.
fn grounded_report(alloc: Global, grounded: &Grounded<'_>, steps: &Steps) -> Result<Report, Ending>
    requires asked { All (LeftOutAt grounded.now.checked.now.task grounded.now.ground_task.now)
        steps.now.numbers.items }
    ensures report { IfOk result (λ report. OfSteps grounded.now.checked.now.task steps.now
        (IsExplained grounded.now.checked.now.task (report_text report))) }
    ensures err { IfErr result (IsRejectedBy (λ how.
        OfSteps grounded.now.checked.now.task steps.now
        (IsUnfit grounded.now.checked.now.task how))) }
{
    let found = match explain_steps(alloc, grounded, steps) {
        Ok(found) => found,
        Err(fail) => return Err(unexplained(&fail)),
    };
    let report = explained_report(alloc, grounded, steps, &found)?;
    Ok(Report::Explain(report))
}

/// Gives the ending that says why a plan is not explained.
fn unexplained(fail: &ExplainFail) -> Ending
    ensures { IsRejectedBy (TellsFail fail.now) result }
{
    match fail {
        ExplainFail::Fault(fault) => invalid(*fault),
        ExplainFail::NoMemory => Ending::OutOfMemory,
    }
}

/// Gives the report of a plan whose steps fit: its first fault, and the reasons with the names of
/// their preferences.
fn explained_report(
    alloc: Global,
    grounded: &Grounded<'_>,
    steps: &Steps,
    found: &Explanation,
) -> Result<ExplainReport, NoMemory>
    requires asked { All (LeftOutAt grounded.now.checked.now.task grounded.now.ground_task.now)
        steps.now.numbers.items }
    requires fit { OfSteps grounded.now.checked.now.task steps.now
        (λ plan. IsTrue (steps_fit grounded.now.checked.now.task plan)) }
    requires fault { OfSteps grounded.now.checked.now.task steps.now
        (λ plan. first_fault grounded.now.checked.now.task plan
        ≡ option_map fault_in found.now.fault) }
    requires reasons { OfSteps grounded.now.checked.now.task steps.now
        (λ plan. found.now.reasons ≡ reasons_of grounded.now.checked.now.task plan) }
    ensures { IfOk result (λ report. OfSteps grounded.now.checked.now.task steps.now
        (λ plan. explain_text report ≡ explained_lines grounded.now.checked.now.task plan)) }
{
    let reasons = named_reasons(alloc, grounded, steps, found.reasons.items())?;
    Ok(ExplainReport {
        fault: first_named(&found.fault),
        reasons,
    })
}

/// Names the first fault of a plan, where it has one.
fn first_named(fault: &Option<PlanFault>) -> Option<Fault>
    ensures { result ≡ option_map fault_named (option_map fault_in fault.now) }
{
    match fault {
        Some(fault) => Some(named_fault(fault)),
        None => None,
    }
}

/// Gives reasons of a plan whose steps fit with the names of their preferences.
fn named_reasons(
    alloc: Global,
    grounded: &Grounded<'_>,
    steps: &Steps,
    reasons: &[Reason],
) -> Result<List<NamedReason>, NoMemory>
    requires asked { All (LeftOutAt grounded.now.checked.now.task grounded.now.ground_task.now)
        steps.now.numbers.items }
    requires fit { OfSteps grounded.now.checked.now.task steps.now
        (λ plan. IsTrue (steps_fit grounded.now.checked.now.task plan)) }
    ensures { IfOk result (λ named. OfSteps grounded.now.checked.now.task steps.now
        (λ plan. named ≡ map (named_in grounded.now.checked.now.task plan) reasons.now)) }
{
    let mut named = List::new(alloc);
    for reason in reasons {
        named.push(named_reason(alloc, grounded, steps, *reason)?)?;
    }
    Ok(named)
}

/// Gives a reason with the name of its preference.
fn named_reason(
    alloc: Global,
    grounded: &Grounded<'_>,
    steps: &Steps,
    reason: Reason,
) -> Result<NamedReason, NoMemory>
    requires asked { All (LeftOutAt grounded.now.checked.now.task grounded.now.ground_task.now)
        steps.now.numbers.items }
    requires fit { OfSteps grounded.now.checked.now.task steps.now
        (λ plan. IsTrue (steps_fit grounded.now.checked.now.task plan)) }
    ensures { IfOk result (λ named. OfSteps grounded.now.checked.now.task steps.now
        (λ plan. named ≡ named_in grounded.now.checked.now.task plan reason)) }
{
    let name = match name_of(grounded, steps, reason.subject) {
        Some(name) => Some(copied(alloc, name)?),
        None => None,
    };
    Ok(NamedReason { reason, name })
}
