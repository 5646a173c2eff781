//! The account of a plan whose steps fit.

ghost use Rattle.std.specs.Prelude.{◌≡◌, ◌≤◌, IfOk, length, option_map};
ghost use Rattle.p3_reports.specs.Faults.{fault_named};
ghost use Rattle.p3_ground.specs.PlansByNumber.{AreNumbers};
ghost use Rattle.p3_run.specs.Runs.{begun, most_steps};
ghost use Rattle.p3_eval.specs.Judged.{fault_in};
ghost use Rattle.p3_eval.specs.Steps.{OfPlanText};
ghost use Rattle.p3_shares.specs.Sharing.{IsRunOfPlan};
ghost use Rattle.p3_findings.specs.Accounts.{IsAccountOf, IsFitting, spares_goal};
ghost use Rattle.p3_findings.specs.Texts.{read};

use crate::texts::PlanTexts;
use p3_accounts::Account;
use p3_base::NoMemory;
use p3_eval::{FaultKind, Grounded, PlanFault};
use p3_explain::{Explained, Explanation};
use p3_reasons::PlacedStep;
use p3_reports::Fault;
use p3_shares::shares_of;
use p3_unmet::{Sources, unmet_headings};
use p3_watch::named_fault;
use std::alloc::Global;

/// Gives the account of a plan whose steps fit, by what is explained of it: what is not satisfied,
/// and what its metric is made of.
pub(crate) fn fitting_account(
    alloc: Global,
    texts: &PlanTexts<'_>,
    grounded: &Grounded<'_>,
    placed: &[PlacedStep],
    explained: &Explained<'_>,
) -> Result<Account, NoMemory>
    requires fitting { OfPlanText texts.now.plan.now
        (IsFitting grounded.now placed.now explained.now.explanation) }
    requires done { IsRunOfPlan grounded.now.checked.now.task
        (begun grounded.now.ground_task.now grounded.now.weights.now) explained.now.run }
    requires few { length explained.now.run.plan ≤ most_steps }
    requires spelled { OfPlanText texts.now.plan.now
        (λ plan. AreNumbers grounded.now.checked.now.task plan explained.now.run.plan) }
    ensures { IfOk result (IsAccountOf grounded.now.checked.now.task
        grounded.now.checked.now.numbered (read texts.now)) }
{
    let Explanation { fault, reasons } = &explained.explanation;
    let sources = Sources::of(alloc, texts.domain, texts.problem)?;
    let reasons = reasons.items();
    let holds = spares_goal(fault);
    let headings = unmet_headings(alloc, grounded.checked(), &sources, placed, reasons, holds)?;
    let shares = shares_of(alloc, grounded, &explained.run)?;
    Ok(Account {
        verdict: first_named(fault),
        headings,
        shares: Some(shares),
    })
}

/// Tells whether a first fault is not that of the goal.
fn spares_goal(fault: &Option<PlanFault>) -> bool
    ensures { result ≡ spares_goal (option_map fault_in fault.now) }
{
    match fault {
        Some(fault) => match fault.kind {
            FaultKind::Goal => false,
            FaultKind::UnknownAction | FaultKind::Arguments => true,
            FaultKind::Precondition | FaultKind::NoCost => true,
            FaultKind::Unmet(_) => true,
        },
        None => true,
    }
}

/// Names the first fault of a plan, where it has one.
fn first_named(fault: &Option<PlanFault>) -> Option<Fault>
    ensures { result ≡ option_map fault_named (option_map fault_in fault.now) }
{
    match fault {
        Some(fault) => Some(named_fault(fault)),
        None => None,
    }
}
