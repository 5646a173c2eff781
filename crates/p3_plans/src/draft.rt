//! A plan that is read in part.

ghost use Rattle.std.specs.Prelude.{◌≡◌, ◌≤◌, ◌++◌, ◌∷◌, ℕ, [], length, IfOk};
ghost use Rattle.std.specs.Str.{str_to_ascii_lowercase};
ghost use Rattle.p3_task.specs.Sides.{plan_byte_limit};
ghost use Rattle.p3_task.specs.PlanTexts.{step_limit};
ghost use Rattle.p3_lexer.specs.Lexing.{token_of};
ghost use Rattle.p3_plans.specs.Befores.{the_before};
ghost use Rattle.p3_plans.specs.declared.draft.Draft.TheVariants as draft;
ghost use Rattle.p3_plans.specs.Drafts.{draft_before, plan_of, added, with_argument, Adds, Ends};

use crate::PlanFail;
use crate::before::{Before, advanced, refusal};
use p3_base::{Code, List, Name, NoMemory};
use p3_lexer::is_close;
use p3_task::{Plan, Step};
use std::alloc::Global;

/// The steps that are whole, and what is read of a step that is open.
#[derive(Drop)]
pub(crate) enum Draft {
    Outside { plan: Plan },
    Begun { plan: Plan },
    Named { plan: Plan, step: Step },
}

/// What stands before the next token.
fn before_of(draft: &Draft) -> Before
    requires few { length (plan_of draft.now) ≤ step_limit }
    ensures { the_before result ≡ draft_before draft.now }
{
    match draft {
        Draft::Outside { plan } => Before::Outside {
            steps: plan.len() as u32,
        },
        Draft::Begun { plan } => Before::Begun {
            steps: plan.len() as u32 + 1,
            begin: 0,
        },
        Draft::Named { plan, .. } => Before::Named {
            steps: plan.len() as u32 + 1,
            begin: 0,
        },
    }
}

fn begun_step(alloc: Global, action: Name) -> Step
    ensures { result ≡ record { action = action; args = [] } }
{
    Step {
        action,
        args: List::new(alloc),
    }
}

fn with_argument(step: Step, argument: Name) -> Result<Step, NoMemory>
    ensures { IfOk result (λ later. later ≡ with_argument step argument) }
{
    let Step { action, mut args } = step;
    args.push(argument)?;
    Ok(Step { action, args })
}

fn with_step(mut plan: Plan, step: Step) -> Result<Draft, NoMemory>
    ensures { IfOk result (λ later. later ≡ draft.Outside (plan ++ step ∷ [])) }
{
    plan.push(step)?;
    Ok(Draft::Outside { plan })
}

/// One more token, where it may stand.
fn with_word(alloc: Global, draft: Draft, word: &[u8]) -> Result<Draft, NoMemory>
    ensures { (at : ℕ) → IfOk result (λ later. later ≡ added draft (token_of at word.now)) }
{
    match draft {
        Draft::Outside { plan } => Ok(Draft::Begun { plan }),
        Draft::Begun { plan } => {
            let action = Name::of(alloc, word)?;
            let step = begun_step(alloc, action);
            Ok(Draft::Named { plan, step })
        }
        Draft::Named { plan, step } => {
            if is_close(word) {
                return with_step(plan, step);
            }
            let argument = Name::of(alloc, word)?;
            let step = with_argument(step, argument)?;
            Ok(Draft::Named { plan, step })
        }
    }
}

/// One more token, or its refusal.
pub(crate) fn add(alloc: Global, draft: Draft, offset: u32, word: &[u8]) -> Result<Draft, PlanFail>
    requires short { length word.now ≤ plan_byte_limit }
    requires few { length (plan_of draft) ≤ step_limit }
    ensures { Adds draft (token_of offset word.now) result }
{
    if let Err(refusal) = advanced(before_of(&draft), offset, word) {
        return Err(PlanFail::Refused(refusal));
    }
    let later = with_word(alloc, draft, word)?;
    Ok(later)
}

/// At the end of a text of so many bytes, the plan is whole or a step is open.
pub(crate) fn whole(draft: Draft, size: u32) -> Result<Plan, PlanFail>
    ensures { Ends size draft result }
{
    match draft {
        Draft::Outside { plan } => Ok(plan),
        Draft::Begun { .. } | Draft::Named { .. } => {
            Err(PlanFail::Refused(refusal(Code::Unbalanced, size, 0)))
        }
    }
}
