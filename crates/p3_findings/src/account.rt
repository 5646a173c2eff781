//! The account of a plan.

ghost use Rattle.std.specs.Prelude.{IfOk};
ghost use Rattle.std.specs.List.{All};
ghost use Rattle.p3_ground.specs.StandsFor.{LeftOutAt};
ghost use Rattle.p3_findings.specs.Accounts.{ArePlaced, HasSteps, IsAccountOf};
ghost use Rattle.p3_findings.specs.Texts.{read};

use crate::fitting::fitting_account;
use crate::misfit::misfit_account;
use crate::texts::PlanTexts;
use p3_accounts::Account;
use p3_base::NoMemory;
use p3_eval::{Accepted, Grounded, Steps};
use p3_explain::{ExplainFail, explained_run};
use p3_reasons::PlacedStep;
use std::alloc::Global;
use std::mem::forget;

/// Gives the account of the plan of these steps, which are placed so. The steps that it has are
/// grounded, and no others.
///
/// # Errors
///
/// Want of memory.
pub fn account_of(
    alloc: Global,
    texts: &PlanTexts<'_>,
    accepted: &Accepted,
    steps: &Steps,
    placed: &[PlacedStep],
) -> Result<Account, NoMemory>
    requires has { HasSteps accepted.now.checked.task texts.now.plan.now steps.now }
    requires placed { ArePlaced accepted.now.checked.task accepted.now.checked.numbered
        steps.now placed.now }
    ensures { IfOk result (IsAccountOf accepted.now.checked.task
        accepted.now.checked.numbered (read texts.now)) }
{
    let ground_task = accepted.ground_steps(alloc, steps.numbers.as_slice())?;
    let account = grounded_account(
        alloc,
        texts,
        &accepted.grounded(&ground_task),
        steps,
        placed,
    );
    forget(ground_task);
    account
}

/// Gives the account of the plan of these steps, which are grounded.
fn grounded_account(
    alloc: Global,
    texts: &PlanTexts<'_>,
    grounded: &Grounded<'_>,
    steps: &Steps,
    placed: &[PlacedStep],
) -> Result<Account, NoMemory>
    requires has { HasSteps grounded.now.checked.now.task texts.now.plan.now steps.now }
    requires asked { All (LeftOutAt grounded.now.checked.now.task grounded.now.ground_task.now)
        steps.now.numbers.items }
    requires placed { ArePlaced grounded.now.checked.now.task grounded.now.checked.now.numbered
        steps.now placed.now }
    ensures { IfOk result (IsAccountOf grounded.now.checked.now.task
        grounded.now.checked.now.numbered (read texts.now)) }
{
    match explained_run(alloc, grounded, steps) {
        Ok(explained) => fitting_account(alloc, texts, grounded, placed, &explained),
        Err(ExplainFail::Fault(fault)) => {
            misfit_account(alloc, texts, grounded.checked(), placed, &fault)
        }
        Err(ExplainFail::NoMemory) => Err(NoMemory),
    }
}
