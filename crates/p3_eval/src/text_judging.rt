//! Judging the text of a plan.

ghost use Rattle.std.specs.Prelude.{◌≡◌, ◌<◌, ◌≤◌, [], length, None, IfSome};
ghost use Rattle.p3_task.specs.PlanTexts.{plan_offence};
ghost use Rattle.p3_task.specs.Sides.{plan_byte_limit};
ghost use Rattle.p3_eval.specs.Judged.{HasItsStep};
ghost use Rattle.p3_run.specs.Runs.{most_steps};
ghost use Rattle.p3_eval.specs.Judging.{
  GoesOn,
  HasDone,
  HasStep,
  IsFirstFault,
  IsRunOf,
  IsVerdict,
};

use crate::{PlanFault, Run, Whole};
use p3_base::Refusal;
use p3_plans::{NextStep, PlanReader, first_plan_offence};
use p3_types::Checked;

/// What the text of a plan comes to.
#[derive(Clone, Copy, Debug)]
pub enum TextVerdict {
    /// It has an offence, of which this is the first.
    Refused(Refusal),
    /// Its plan is not valid.
    Invalid(PlanFault),
    /// Its plan is valid.
    Valid,
}

/// Judges the text of a plan by a run of no step. Where the plan is valid, the run has then done its
/// steps. It takes no memory.
pub fn judge_text(whole: &Whole, run: &mut Run<'_>, text: &[u8]) -> TextVerdict
    requires of { IsRunOf whole.now.checked.task run.old }
    requires begins { run.old.plan ≡ [] }
    requires short { length text.now ≤ plan_byte_limit }
    ensures verdict { IsVerdict whole.now.checked.task text.now run.new result }
    ensures of { IsRunOf whole.now.checked.task run.new }
{
    if let Some(refusal) = first_plan_offence(text) {
        return TextVerdict::Refused(refusal);
    }
    match first_fault(whole.checked(), run, text) {
        Some(fault) => TextVerdict::Invalid(fault),
        None => TextVerdict::Valid,
    }
}

/// The first fault of the plan of a text that has no offence. Where there is none, the run has done
/// the steps of the plan.
fn first_fault(checked: &Checked, run: &mut Run<'_>, text: &[u8]) -> Option<PlanFault>
    requires of { IsRunOf checked.now.task run.old }
    requires begins { run.old.plan ≡ [] }
    requires short { length text.now ≤ plan_byte_limit }
    requires free { plan_offence text.now ≡ None }
    ensures fault { IsFirstFault checked.now.task text.now result }
    ensures placed { IfSome result HasItsStep }
    ensures done { result ≡ None → HasDone checked.now.task text.now run.new }
    ensures of { IsRunOf checked.now.task run.new }
{
    let mut reader = PlanReader::new(text);
    loop {
        match reader.next() {
            NextStep::Step(slice) => match step_fault(checked, run, slice.text) {
                None => {}
                Some(fault) => return Some(fault),
            },
            NextStep::End => return run.judge(),
            // The text has no offence.
            NextStep::Bad(_) => unreachable!(),
        }
    }
}

/// Does the step of a text, or answers the first fault of each plan that goes on with it.
fn step_fault(checked: &Checked, run: &mut Run<'_>, text: &[u8]) -> Option<PlanFault>
    requires of { IsRunOf checked.now.task run.old }
    requires room { length run.old.plan < most_steps }
    requires short { length text.now ≤ plan_byte_limit }
    requires spelled { HasStep text.now }
    ensures goes { GoesOn checked.now.task run.old run.new text.now result }
    ensures placed { IfSome result HasItsStep }
    ensures of { IsRunOf checked.now.task run.new }
{
    run.follow(checked.find_text(text))
}
