//! What the names of a written task stand for.

ghost use Rattle.std.specs.Prelude.{◌≡◌, IfErr, IfOk, OnErr};
ghost use Rattle.p3_base.specs.declared.refusal.Side.TheVariants.{Source};
ghost use Rattle.p3_numbers.specs.Tasks.{IsNumberedTask};
ghost use Rattle.p3_cli.specs.Refusing.{AreAcceptedFor, IsRejectedBy};
ghost use Rattle.p3_cli.specs.Texts.{all_texts};
ghost use Rattle.p3_cli.specs.Translation.{CanBeCompiled};
ghost use Rattle.p3_why.specs.Accounts.{name_of};
ghost use Rattle.p3_why.specs.Ending.{IsAnsweredOrCut};
ghost use Rattle.p3_why.specs.Names.{AreToldNames, put_status};
ghost use Rattle.p3_why.specs.Run.{Refuses};
ghost use Rattle.p3_why.specs.declared.question.Question.TheVariants.{Names};

use crate::status::{DONE, OUT_OF_MEMORY, UNPUT};
use crate::words::name_at;
use p3_accounts::Terms;
use p3_base::{NoMemory, Side, Sink, Word};
use p3_cli::{Ending, Texts, whole_task};
use p3_eval::Whole;
use p3_meanings::{NamesFail, ground_atoms, put_names};
use p3_types::Checked;
use p3_unmet::Sources;
use std::alloc::Global;
use std::mem::forget;

/// Puts what the names stand for of the task that the two texts spell, written for planners, and
/// gives the status; or the ending of which no line has been put.
pub(crate) fn tell_names<S: Sink>(
    alloc: Global,
    names: &[Word],
    texts: &Texts,
    out: &mut S,
) -> Result<u8, Ending>
    ensures told { IfOk result (IsAnsweredOrCut (AreToldNames names.now (all_texts texts.now))
        (S.seen out.old) (S.seen out.new)) }
    ensures err { IfErr result (IsRejectedBy (Refuses Names (all_texts texts.now))) }
    ensures unput { OnErr result (out.new ≡ out.old) }
{
    let whole = whole_task(alloc, texts)?;
    let status = told_names(alloc, names, texts, &whole, out);
    forget(whole);
    Ok(status?)
}

/// Puts what the names stand for of an accepted task, and gives the status.
fn told_names<S: Sink>(
    alloc: Global,
    names: &[Word],
    texts: &Texts,
    whole: &Whole,
    out: &mut S,
) -> Result<u8, NoMemory>
    requires accepted { AreAcceptedFor Source (all_texts texts.now) whole.now.checked.task }
    requires ready { CanBeCompiled
        whole.now.checked.task whole.now.ground_task whole.now.weights }
    ensures told { IfOk result (IsAnsweredOrCut (AreToldNames names.now (all_texts texts.now))
        (S.seen out.old) (S.seen out.new)) }
    ensures unput { OnErr result (out.new ≡ out.old) }
{
    let checked = whole.checked();
    let domain = texts.domain_of(Side::Source);
    let problem = texts.problem_of(Side::Source);
    let sources = Sources::of(alloc, domain, problem)?;
    let atoms = ground_atoms(alloc, checked)?;
    let terms = terms_of(names, checked);
    let put = put_names(
        alloc,
        checked,
        whole.ground_task(),
        &atoms,
        &sources,
        &terms,
        out,
    );
    Ok(status_of(&put))
}

/// Gives the status of what was put.
fn status_of(put: &Result<(), NamesFail>) -> u8
    ensures { result ≡ put_status put.now }
{
    match put {
        Ok(()) => DONE,
        Err(NamesFail::SinkFailed) => UNPUT,
        Err(NamesFail::NoMemory) => OUT_OF_MEMORY,
    }
}

/// Gives what the numbers of the names stand for; there is no plan.
fn terms_of<'a>(names: &'a [Word], checked: &'a Checked) -> Terms<'a>
    ensures domain { result.domain.now ≡ name_of names.now 0 }
    ensures problem { result.problem.now ≡ name_of names.now 1 }
    ensures actions { result.actions.now ≡ checked.now.task.domain.actions }
    ensures numbers { result.numbers.now ≡ checked.now.numbered.numbers }
    ensures numbered { IsNumberedTask checked.now.task checked.now.numbered }
{
    Terms {
        domain: name_at(names, 0),
        problem: name_at(names, 1),
        plan: &[],
        actions: checked.task().domain.actions.items(),
        numbers: &checked.numbered().numbers,
        steps: &[],
    }
}
