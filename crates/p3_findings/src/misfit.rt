//! The account of a plan with a step that does not fit.

ghost use Rattle.std.specs.Prelude.{IfOk};
ghost use Rattle.p3_eval.specs.Judged.{fault_in};
ghost use Rattle.p3_eval.specs.Steps.{OfPlanText};
ghost use Rattle.p3_findings.specs.Accounts.{IsAccountOf, IsMisfit};
ghost use Rattle.p3_findings.specs.Texts.{read};

use crate::texts::PlanTexts;
use p3_accounts::{Account, Lines};
use p3_base::{List, NoMemory};
use p3_eval::PlanFault;
use p3_inapplicable::step_heading;
use p3_reasons::PlacedStep;
use p3_reports::Fault;
use p3_types::Checked;
use p3_watch::named_fault;
use std::alloc::Global;

/// Gives the account of a plan whose first step that does not fit has this fault.
pub(crate) fn misfit_account(
    alloc: Global,
    texts: &PlanTexts<'_>,
    checked: &Checked,
    placed: &[PlacedStep],
    fault: &PlanFault,
) -> Result<Account, NoMemory>
    requires { OfPlanText texts.now.plan.now
        (IsMisfit checked.now texts.now.plan.now placed.now (fault_in fault.now)) }
    ensures { IfOk result (IsAccountOf checked.now.task checked.now.numbered
        (read texts.now)) }
{
    let verdict = named_fault(fault);
    let mut headings = List::new(alloc);
    // The goal and constraints are no faults of steps.
    if let Fault::AtStep(number, kind) = verdict {
        let text = texts.plan;
        let lines = Lines::of(alloc, text)?;
        headings.push(step_heading(alloc, checked, text, &lines, placed, number, kind)?)?;
    }
    Ok(Account {
        verdict: Some(verdict),
        headings,
        shares: None,
    })
}
