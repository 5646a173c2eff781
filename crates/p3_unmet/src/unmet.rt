//! The headings of what a plan does not satisfy.

ghost use Rattle.std.specs.Prelude.{◌≡◌, IfOk};
ghost use Rattle.std.specs.List.{AllZip};
ghost use Rattle.p3_task.specs.Explanations.{reasons as reasons_of};
ghost use Rattle.p3_task.specs.Plans.{Plan};
ghost use Rattle.p3_task.specs.Validity.{goal_holds};
ghost use Rattle.p3_reasons.specs.Visits.{IsPlaced};
ghost use Rattle.p3_unmet.specs.Sources.{texts};
ghost use Rattle.p3_unmet.specs.Unmet.{AreUnmet};

use crate::Sources;
use crate::drafting::drafts;
use crate::stage::Stage;
use crate::telling::told;
use p3_accounts::Heading;
use p3_base::{List, NoMemory, Reason};
use p3_reasons::PlacedStep;
use p3_types::Checked;
use std::alloc::Global;

/// Gives the headings of what a plan does not satisfy, its goal first and then its constraints and
/// preferences in the order of the reasons. It runs over the plan once, whatever their number.
///
/// # Errors
///
/// Want of memory.
pub fn unmet_headings(
    alloc: Global,
    checked: &Checked,
    sources: &Sources<'_>,
    steps: &[PlacedStep],
    reasons: &[Reason],
    holds: bool,
) -> Result<List<Heading>, NoMemory>
    ensures { IfOk result (λ headings. (plan : Plan)
        → AllZip (IsPlaced checked.now.task checked.now.numbered) plan steps.now
        → reasons.now ≡ reasons_of checked.now.task plan
        → holds ≡ goal_holds checked.now.task plan
        → AreUnmet checked.now.task checked.now.numbered.numbers
        (texts sources.now) plan headings) }
{
    let stage = Stage::of(alloc, checked, sources, steps)?;
    let drafts = drafts(&stage, reasons, holds)?;
    told(alloc, checked.numbered(), steps, drafts.items())
}
