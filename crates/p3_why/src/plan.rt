//! Why a plan is not valid, or what it costs.

ghost use Rattle.std.specs.Prelude.{◌≡◌, IfErr, IfOk, OnErr, is_none};
ghost use Rattle.p3_numbers.specs.Tasks.{IsNumberedTask};
ghost use Rattle.p3_accounts.specs.Accounts.{account_text};
ghost use Rattle.p3_accounts.specs.Vocabularies.{vocabulary};
ghost use Rattle.p3_cli.specs.Refusing.{IsRejectedBy};
ghost use Rattle.p3_cli.specs.Texts.{all_texts};
ghost use Rattle.p3_findings.specs.Texts.{read};
ghost use Rattle.p3_why.specs.Accounts.{AreGiven, IsToldOfPlan, name_of, read_of};
ghost use Rattle.p3_why.specs.Ending.{Answered, IsAnswered, Tells, answer_status};
ghost use Rattle.p3_why.specs.Run.{Refuses};
ghost use Rattle.p3_why.specs.declared.question.Question.TheVariants.{Plan};

use crate::status::{DONE, INVALID, UNPUT};
use crate::words::name_at;
use p3_accounts::{Account, Terms, put_account};
use p3_base::{List, NoMemory, Side, Sink, SinkFailed, Word};
use p3_cli::{Ending, Texts, judged_task};
use p3_eval::{Accepted, Steps};
use p3_findings::{PlanTexts, account_of};
use p3_reasons::PlacedStep;
use p3_scenes::placed_steps;
use p3_types::Checked;
use std::alloc::Global;
use std::mem::forget;

/// Puts the account of the plan that a text spells, for the task that the two other texts spell, and
/// gives the status; or the ending of which no line has been put.
pub(crate) fn tell_plan<S: Sink>(
    alloc: Global,
    names: &[Word],
    texts: &Texts,
    out: &mut S,
) -> Result<u8, Ending>
    ensures told { IfOk result (IsAnswered (IsToldOfPlan names.now (all_texts texts.now))
        (S.seen out.old) (S.seen out.new)) }
    ensures err { IfErr result (IsRejectedBy (Refuses Plan (all_texts texts.now))) }
    ensures unput { OnErr result (out.new ≡ out.old) }
{
    let (accepted, steps) = judged_task(alloc, texts)?;
    let status = told_plan(alloc, names, texts, &accepted, &steps, out);
    forget((accepted, steps));
    Ok(status?)
}

/// Puts the account of the plan of these steps for an accepted task, and gives the status.
fn told_plan<S: Sink>(
    alloc: Global,
    names: &[Word],
    texts: &Texts,
    accepted: &Accepted,
    steps: &Steps,
    out: &mut S,
) -> Result<u8, NoMemory>
    requires { AreGiven accepted.now.checked.task (all_texts texts.now) steps.now }
    ensures told { IfOk result (IsAnswered (IsToldOfPlan names.now (all_texts texts.now))
        (S.seen out.old) (S.seen out.new)) }
    ensures unput { OnErr result (out.new ≡ out.old) }
{
    let checked = accepted.checked();
    let placed = placed_steps(alloc, checked, steps.numbers.as_slice())?;
    let account = account_of(alloc, &plan_texts(texts), accepted, steps, placed.items())?;
    let terms = terms_of(names, checked, &placed);
    let status = told_account(&account, &terms, out);
    forget((account, placed));
    Ok(status)
}

/// Gives the texts of the task and of the plan.
fn plan_texts(texts: &Texts) -> PlanTexts<'_>
    ensures { read result ≡ read_of (all_texts texts.now) }
{
    PlanTexts {
        domain: texts.domain_of(Side::Source),
        problem: texts.problem_of(Side::Source),
        plan: texts.plan(),
    }
}

/// Gives what the numbers of an account of the task stand for.
fn terms_of<'a>(names: &'a [Word], checked: &'a Checked, steps: &'a List<PlacedStep>) -> Terms<'a>
    ensures domain { result.domain.now ≡ name_of names.now 0 }
    ensures problem { result.problem.now ≡ name_of names.now 1 }
    ensures plan { result.plan.now ≡ name_of names.now 2 }
    ensures actions { result.actions.now ≡ checked.now.task.domain.actions }
    ensures numbers { result.numbers.now ≡ checked.now.numbered.numbers }
    ensures numbered { IsNumberedTask checked.now.task checked.now.numbered }
    ensures steps { result.steps.now ≡ steps.now }
{
    Terms {
        domain: name_at(names, 0),
        problem: name_at(names, 1),
        plan: name_at(names, 2),
        actions: checked.task().domain.actions.items(),
        numbers: &checked.numbered().numbers,
        steps: steps.items(),
    }
}

/// Puts an account, and gives the status.
fn told_account<S: Sink>(account: &Account, terms: &Terms<'_>, out: &mut S) -> u8
    ensures { Tells (S.seen out.old) (S.seen out.new) result (Answered
        (account_text (vocabulary terms.now) account.now) (is_none account.now.verdict)) }
{
    match put_account(account, terms, out) {
        Ok(()) => status_of(account),
        Err(SinkFailed) => UNPUT,
    }
}

/// Gives the status that says whether the plan is valid.
fn status_of(account: &Account) -> u8
    ensures { result ≡ answer_status (is_none account.now.verdict) }
{
    match account.verdict {
        None => DONE,
        Some(_) => INVALID,
    }
}
