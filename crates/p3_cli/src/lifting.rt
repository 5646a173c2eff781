//! What `lift` makes of the texts of a task, of one that is written for it, and of a plan for that.

ghost use Rattle.std.specs.Prelude.{
  ◌≡◌,
  ◌++◌,
  ◌∷◌,
  ◌<◌,
  ◌≤◌,
  [],
  IfErr,
  IfOk,
  IsTrue,
  None,
  OnOk,
};
ghost use Rattle.std.specs.List.{All, list_all};
ghost use Rattle.p3_base.specs.declared.refusal.Side.TheVariants.{Source};
ghost use Rattle.p3_base.specs.declared.refusal.Side.TheVariants as side;
ghost use Rattle.p3_task.specs.Limits.{step_count};
ghost use Rattle.p3_task.specs.Metrics.{value};
ghost use Rattle.p3_task.specs.PlanTexts.{IsPlanText, plan_offence};
ghost use Rattle.p3_task.specs.Sides.{step_count_limit};
ghost use Rattle.p3_tree.specs.Reports.Plans.{lifted_lines};
ghost use Rattle.p3_plans.specs.Layout.{has_written_words, plan_layout};
ghost use Rattle.p3_eval.specs.Steps.{AreOfPlan, AreStepsOf, OfPlanText};
ghost use Rattle.p3_lift.specs.Lifting.{numbered_steps};
ghost use Rattle.p3_reports.specs.Reports.{report_text};
ghost use Rattle.p3_cli.specs.Lifting.{IsLifting, RejectsLift, TellsFail, given_lift};
ghost use Rattle.p3_cli.specs.Refusing.{AreAcceptedFor, IsRefusal, IsRejectedBy, IsSpelled};
ghost use Rattle.p3_cli.specs.Texts.{all_texts, task_texts};
ghost use Rattle.p3_cli.specs.WrittenText.{HasPlanLayout};

use crate::Ending;
use crate::acceptance::{accepted, behind_plan, spelled_task, steps_of};
use crate::evaluation::invalid;
use crate::product::Product;
use crate::report_parts::{differing, lifted_report};
use crate::texts::{Made, Texts};
use p3_base::{NoMemory, Side};
use p3_eval::{Accepted, Steps};
use p3_lift::{LiftFail, LiftedSteps, lift_steps};
use p3_plans::push_step;
use p3_reports::{Rejection, Report};
use p3_task::Task;
use p3_types::Checked;
use std::alloc::Global;
use std::mem::forget;

/// Brings the plan that the last text spells back to the task that the first two texts spell.
pub(crate) fn lift(alloc: Global, texts: &Texts) -> Result<Product, Ending>
    ensures means { IfOk result (λ product. IsLifting
        (all_texts texts.now) product.made.plan.items (report_text product.report)) }
    ensures lines { IfOk result (λ product. HasPlanLayout product.made.plan.items) }
    ensures err { IfErr result (IsRejectedBy (RejectsLift (all_texts texts.now))) }
{
    let (source, written, steps) = given(alloc, texts)?;
    let lifted = match lift_steps(alloc, &source, &written, &steps) {
        Ok(lifted) => lifted,
        Err(fail) => return Err(unlifted(&fail)),
    };
    let made = lifting_of(alloc, &source, &lifted)?;
    forget((source, written));
    forget((steps, lifted));
    Ok(made)
}

/// Accepts the two tasks that the texts spell and finds the steps of the plan in the written one,
/// where nothing is refused of them.
fn given(alloc: Global, texts: &Texts) -> Result<(Accepted, Accepted, Steps), Ending>
    ensures source { IfOk result (λ given.
        AreAcceptedFor Source (all_texts texts.now) given.0.checked.task) }
    ensures written { IfOk result (λ given.
        AreAcceptedFor side.Written (all_texts texts.now) given.1.checked.task) }
    ensures are { IfOk result (λ given. OfPlanText texts.now.plan.items
        (λ plan. AreStepsOf given.1.checked.task plan given.2)) }
    ensures some { IfOk result (λ given. AreOfPlan given.1.checked.task given.2) }
    ensures free { OnOk result (plan_offence texts.now.plan.items ≡ None) }
    ensures err { IfErr result (IsRejectedBy
        (IsRefusal (given_lift (all_texts texts.now)) (all_texts texts.now))) }
{
    let (source, written) = both_tasks(alloc, texts)?;
    match steps_of(alloc, texts, written.checked()) {
        Ok(steps) => Ok((source, written, steps)),
        Err(ending) => {
            forget((source, written));
            Err(ending)
        }
    }
}

/// Accepts the two tasks that the texts spell. The plan is looked at only where one is refused, for an
/// offence that is told before.
fn both_tasks(alloc: Global, texts: &Texts) -> Result<(Accepted, Accepted), Ending>
    ensures source { IfOk result (λ both.
        AreAcceptedFor Source (all_texts texts.now) both.0.checked.task) }
    ensures written { IfOk result (λ both.
        AreAcceptedFor side.Written (all_texts texts.now) both.1.checked.task) }
    ensures err { IfErr result (IsRejectedBy
        (IsRefusal (given_lift (all_texts texts.now)) (all_texts texts.now))) }
{
    let (source, written) = spelled_tasks(alloc, texts)?;
    let source = match accepted(alloc, Side::Source, texts, source) {
        Ok(source) => source,
        Err(ending) => return Err(behind_plan(texts, ending)),
    };
    match accepted(alloc, Side::Written, texts, written) {
        Ok(written) => Ok((source, written)),
        Err(ending) => Err(behind_plan(texts, ending)),
    }
}

/// Reads the two tasks that the texts spell, where no text of them shows a refusal by itself.
fn spelled_tasks(alloc: Global, texts: &Texts) -> Result<(Task, Task), Ending>
    ensures source { IfOk result (λ both.
        IsSpelled (task_texts Source (all_texts texts.now)) both.0) }
    ensures written { IfOk result (λ both.
        IsSpelled (task_texts side.Written (all_texts texts.now)) both.1) }
    ensures err { IfErr result (IsRejectedBy
        (IsRefusal (given_lift (all_texts texts.now)) (all_texts texts.now))) }
{
    let source = spelled_task(alloc, Side::Source, texts)?;
    match spelled_task(alloc, Side::Written, texts) {
        Ok(written) => Ok((source, written)),
        Err(ending) => {
            drop(source);
            Err(ending)
        }
    }
}

/// Gives the ending that says why a plan is not lifted.
fn unlifted(fail: &LiftFail) -> Ending
    ensures { IsRejectedBy (TellsFail fail.now) result }
{
    match fail {
        LiftFail::NotPlain => Ending::Refused(Rejection::NotPlain),
        LiftFail::Invalid(fault) => invalid(*fault),
        LiftFail::Mismatch(differ) => Ending::Refused(differing(differ)),
        LiftFail::NoMemory => Ending::OutOfMemory,
    }
}

/// Writes a lifted plan of an accepted task, and makes the report.
fn lifting_of(alloc: Global, source: &Accepted, lifted: &LiftedSteps) -> Result<Product, NoMemory>
    requires within { All (λ number. number < step_count source.now.checked.task)
        lifted.now.numbers.items }
    requires words { IsTrue (list_all has_written_words
        (numbered_steps source.now.checked.task lifted.now.numbers.items)) }
    requires metric { lifted.now.metric ≡ value source.now.checked.task
        (numbered_steps source.now.checked.task lifted.now.numbers.items) }
    ensures plan { IfOk result (λ product. IsPlanText product.made.plan.items
        (numbered_steps source.now.checked.task lifted.now.numbers.items)) }
    ensures lines { IfOk result (λ product. HasPlanLayout product.made.plan.items) }
    ensures report { IfOk result (λ product. report_text product.report
        ≡ lifted_lines source.now.checked.task
        (numbered_steps source.now.checked.task lifted.now.numbers.items) lifted.now.cost) }
{
    let made = Made {
        domain: Vec::new(alloc),
        problem: Vec::new(alloc),
        plan: lifted_text(alloc, source.checked(), lifted.numbers.as_slice())?,
    };
    Ok(Product {
        made,
        report: Report::Lift(lifted_report(source.checked(), lifted)),
    })
}

/// Writes the plan of the steps of these numbers: a line for each.
fn lifted_text(alloc: Global, checked: &Checked, numbers: &[u32]) -> Result<Vec<u8>, NoMemory>
    requires few { step_count checked.now.task ≤ step_count_limit }
    requires within { All (λ number. number < step_count checked.now.task) numbers.now }
    requires words { IsTrue (list_all has_written_words
        (numbered_steps checked.now.task numbers.now)) }
    ensures text { IfOk result (λ text.
        text.items ≡ plan_layout (numbered_steps checked.now.task numbers.now)) }
    ensures plan { IfOk result (λ text.
        IsPlanText text.items (numbered_steps checked.now.task numbers.now)) }
{
    let mut text = Vec::new(alloc);
    for number in numbers {
        push_line(&mut text, alloc, checked, *number)?;
    }
    Ok(text)
}

/// Puts the line of the step of that number.
fn push_line(
    text: &mut Vec<u8>,
    alloc: Global,
    checked: &Checked,
    number: u32,
) -> Result<(), NoMemory>
    requires few { step_count checked.now.task ≤ step_count_limit }
    requires within { number < step_count checked.now.task }
    ensures { OnOk result (text.new.items
        ≡ text.old.items ++ plan_layout (numbered_steps checked.now.task (number ∷ []))) }
{
    let step = checked.step(alloc, number)?;
    let pushed = push_step(text, step.action.bytes(), step.args.items());
    drop(step);
    pushed
}
