//! The heading of the step that is the first fault of a plan.

ghost use Rattle.std.specs.Prelude.{◌≡◌, ◌≤◌, length, IfOk};
ghost use Rattle.p3_task.specs.Plans.{Plan};
ghost use Rattle.p3_task.specs.Sides.{plan_byte_limit};
ghost use Rattle.p3_reports.specs.Faults.{misfit_of};
ghost use Rattle.p3_inapplicable.specs.Headings.{IsMisfitOf, IsStepHeading};

use crate::reason::{Reason, reason_of};
use crate::wording::{step_slice, step_words};
use p3_accounts::{Heading, InputFile, Lines, Subject};
use p3_base::NoMemory;
use p3_reasons::PlacedStep;
use p3_reports::Misfit;
use p3_types::Checked;
use std::alloc::Global;

/// Says why the step of that number, counted from 1, does not fit, where it is the first that does
/// not. The steps are the first of the plan by number, also this one where it has a number.
///
/// # Errors
///
/// Want of memory.
pub fn step_heading(
    alloc: Global,
    checked: &Checked,
    text: &[u8],
    lines: &Lines<'_>,
    steps: &[PlacedStep],
    number: u32,
    kind: Misfit,
) -> Result<Heading, NoMemory>
    requires short { length text.now ≤ plan_byte_limit }
    requires lines { lines.now.text.now ≡ text.now }
    ensures { IfOk result (λ heading. (plan : Plan) → IsMisfitOf checked.now.task
        checked.now.numbered text.now plan steps.now number (misfit_of kind)
        → IsStepHeading checked.now.task checked.now.numbered text.now plan number
        (misfit_of kind) heading) }
{
    let slice = step_slice(text, number.saturating_sub(1));
    let words = step_words(alloc, slice.text)?;
    let Reason { fault, shown } = reason_of(alloc, checked, steps, number, &words, kind)?;
    Ok(Heading {
        spot: Some(lines.spot(InputFile::Plan, slice.offset)),
        subject: Subject::Step {
            number,
            words,
            fault,
        },
        shown,
    })
}
