//! The top call.

ghost use Rattle.std.specs.Prelude.{◌≡◌, ◌↔◌, IfErr, IfOk, IsTrue, None, OnErr, Some};
ghost use Rattle.p3_cli.specs.Ending.{ending_of};
ghost use Rattle.p3_cli.specs.Status as status;
ghost use Rattle.p3_cli.specs.Store.{AreStored};
ghost use Rattle.p3_why.specs.Asked.{asking_in, asking_of, inputs_of};
ghost use Rattle.p3_why.specs.Ending.{Ending as HowItEnds, Tells, Unanswered, Usage};
ghost use Rattle.p3_why.specs.Run.{AreHeld, Comes, Ends, MustAnswer};

use crate::asked::asked;
use crate::asking::Asking;
use crate::names::tell_names;
use crate::plan::tell_plan;
use crate::question::Question;
use crate::status::USAGE;
use crate::usage::put_usage;
use p3_base::{Files, Sink, Word};
use p3_cli::{Ending, read_all, told};
use std::alloc::Global;

/// Answers what the words ask for, and gives the status of the process.
///
/// It reads the inputs in order, and puts why a plan is not valid or what it costs, or what the
/// names of a written task stand for. It writes no file. The statuses are 0 (answered, and a plan is
/// valid), 1 (a plan is not valid), 2 (an input is refused), 3 (an input was not read), 5 (want of
/// memory, of a plan before anything is put), 6 (the answer was not put) and 64 (usage).
pub fn why<F: Files, S: Sink>(alloc: Global, words: &[Word], files: &mut F, out: &mut S) -> u8
    requires { IsTrue (F.seen files.old).is_sure
        → AreHeld (asking_of words.now) (F.seen files.old).held }

    // The words decide about usage, and then no file is touched.
    ensures usage { (result ≡ status.usage) ↔ (asking_of words.now ≡ None) }
    ensures untouched { asking_of words.now ≡ None → files.new ≡ files.old }

    // The files hold what they held.
    ensures held { (F.seen files.new).held ≡ (F.seen files.old).held }

    // What is accepted is answered, but for faults and want of memory.
    ensures completes { MustAnswer (asking_of words.now)
        (F.seen files.old) (F.seen files.new) (S.seen out.old) (S.seen out.new) result }

    // What is put is what the ending says.
    ensures ending { (how : HowItEnds) × Ends (asking_of words.now)
        (F.seen files.old) (F.seen files.new) (S.seen out.old) (S.seen out.new) result how }
{
    carried_through(alloc, words, files, out)
}

/// Answers what the words ask for, or puts why it does not, and gives the status.
fn carried_through<F: Files, S: Sink>(
    alloc: Global,
    words: &[Word],
    files: &mut F,
    out: &mut S,
) -> u8
    requires { IsTrue (F.seen files.old).is_sure
        → AreHeld (asking_of words.now) (F.seen files.old).held }
    ensures usage { (result ≡ status.usage) ↔ (asking_of words.now ≡ None) }
    ensures untouched { asking_of words.now ≡ None → files.new ≡ files.old }
    ensures held { (F.seen files.new).held ≡ (F.seen files.old).held }
    ensures ending { (how : HowItEnds) × Ends (asking_of words.now)
        (F.seen files.old) (F.seen files.new) (S.seen out.old) (S.seen out.new) result how }
{
    let Some(asking) = asked(words) else {
        return told_usage(out);
    };
    match answered(alloc, &asking, files, out) {
        Ok(status) => status,
        Err(ending) => told(&ending, out),
    }
}

/// Puts the lines of usage, and gives its status.
fn told_usage<S: Sink>(out: &mut S) -> u8
    ensures status { result ≡ status.usage }
    ensures tells { Tells (S.seen out.old) (S.seen out.new) result Usage }
{
    // The status says it where the lines are not put.
    let _put = put_usage(out);
    USAGE
}

/// Reads the inputs in order and puts the answer. Gives the status, or the ending of which no line
/// has been put.
fn answered<F: Files, S: Sink>(
    alloc: Global,
    asking: &Asking<'_>,
    files: &mut F,
    out: &mut S,
) -> Result<u8, Ending>
    requires { IsTrue (F.seen files.old).is_sure
        → AreStored (F.seen files.old).held (inputs_of (asking_in asking.now)) }
    ensures held { (F.seen files.new).held ≡ (F.seen files.old).held }
    ensures ended { IfOk result (λ status. (how : HowItEnds)
        × Ends (Some (asking_in asking.now)) (F.seen files.old) (F.seen files.new)
        (S.seen out.old) (S.seen out.new) status how) }
    ensures comes { IfErr result (λ ending. Comes (asking_in asking.now)
        (F.seen files.old) (F.seen files.new) (Unanswered (ending_of ending))) }
    ensures unput { OnErr result (out.new ≡ out.old) }
{
    let inputs = asking.inputs(alloc)?;
    let texts = match read_all(alloc, files, inputs.as_slice()) {
        Ok(texts) => texts,
        Err(ending) => return Err(ending),
    };
    match asking.question {
        Question::Plan => tell_plan(alloc, asking.names, &texts, out),
        Question::Names => tell_names(alloc, asking.names, &texts, out),
    }
}
