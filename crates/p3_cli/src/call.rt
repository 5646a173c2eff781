//! The top call.

ghost use Rattle.std.specs.Prelude.{◌≡◌, ◌↔◌, IfErr, IfOk, IfSome, IsTrue, None, OnErr, Some};
ghost use Rattle.p3_base.specs.Outside.{Rose};
ghost use Rattle.p3_tree.specs.Commands.{command_of, inputs};
ghost use Rattle.p3_cli.specs.Asked.{asked_command};
ghost use Rattle.p3_cli.specs.Ending.{Ending, Tells, ending_of};
ghost use Rattle.p3_cli.specs.Meaning.{IsDone, IsFaithfulRun, IsLaidOutRun};
ghost use Rattle.p3_cli.specs.Run.{
  AreHeld,
  Comes,
  Ends,
  IsStatusIn,
  Leaves,
  MustComplete,
  MustReject,
  OthersStay,
};
ghost use Rattle.p3_cli.specs.Status as status;
ghost use Rattle.p3_cli.specs.Store.{AreStored};

use crate::asking::asked;
use crate::ending;
use crate::following::follow;
use crate::product::product_of;
use crate::request::Request;
use crate::status::UNPUT;
use crate::store::{read_all, write_all};
use crate::table::row_of;
use p3_base::{Files, Sink, SinkFailed, Word};
use p3_tree::CommandKind;
use std::alloc::Global;

/// Does what the words ask for, and answers the status of the process.
///
/// It reads the inputs in order, computes, writes the outputs in order, and then puts the report.
/// The statuses are 0 (done), 1 (a plan is not valid), 2 (an input is refused), 3 (an input was not
/// read), 4 (an output was not written), 5 (want of memory, at any point before the first write, or
/// where a write answers it), 6 (done, but the report was not put) and 64 (usage).
pub fn run<F: Files, S: Sink>(alloc: Global, words: &[Word], files: &mut F, out: &mut S) -> u8
    requires { IsTrue (F.seen files.old).is_sure
        → AreHeld (command_of words.now) (F.seen files.old).held }

    // The words decide about usage, and then no file is touched.
    ensures usage { (result ≡ status.usage) ↔ (command_of words.now ≡ None) }
    ensures usage_untouched { command_of words.now ≡ None → files.new ≡ files.old }

    // What is read is refused, or a plan is not valid, where that is shown; and where it is, it comes.
    ensures refused { result ≡ status.refused
        → IfSome (F.seen files.old).held (IsStatusIn (command_of words.now) status.refused) }
    ensures invalid { result ≡ status.invalid
        → IfSome (F.seen files.old).held (IsStatusIn (command_of words.now) status.invalid) }
    ensures rejects { MustReject (command_of words.now) (F.seen files.old)
        (F.seen files.new) result }

    // A failure comes only where the outside failed.
    ensures read_failed { result ≡ status.unread
        → Rose (F.seen files.old).read_faults (F.seen files.new).read_faults }
    ensures write_failed { result ≡ status.unwritten
        → Rose (F.seen files.old).write_faults (F.seen files.new).write_faults }
    ensures put_failed { result ≡ status.unput
        → Rose (S.seen out.old).faults (S.seen out.new).faults }

    // What is accepted is done, but for faults and want of memory.
    ensures completes { MustComplete (command_of words.now)
        (F.seen files.old) (F.seen files.new) (S.seen out.old) (S.seen out.new) result }

    // A done run leaves a faithful translation of the task that it read, and puts that task's report.
    ensures faithful { IsDone result → IsFaithfulRun (command_of words.now)
        (F.seen files.old) (F.seen files.new) (S.seen out.old) (S.seen out.new) result }

    // It is the layout of a target to which a ground task that stands for the task is compiled.
    ensures layout { IsDone result
        → IsLaidOutRun (command_of words.now) (F.seen files.old) (F.seen files.new)
        (S.seen out.old) (S.seen out.new) result }

    // A name that is no output holds what it held.
    ensures others { OthersStay (command_of words.now) (F.seen files.old).held
        (F.seen files.new).held }

    // What is left in the files and put into the sink is what the ending says.
    ensures ending { (how : Ending) × Ends (command_of words.now)
        (F.seen files.old) (F.seen files.new) (S.seen out.old) (S.seen out.new) result how }
{
    carried_through(alloc, words, files, out)
}

/// Does what the words ask for and puts the lines of how that ends, and answers the status.
fn carried_through<F: Files, S: Sink>(
    alloc: Global,
    words: &[Word],
    files: &mut F,
    out: &mut S,
) -> u8
    requires { IsTrue (F.seen files.old).is_sure
        → AreHeld (command_of words.now) (F.seen files.old).held }
    ensures untouched { command_of words.now ≡ None → files.new ≡ files.old }
    ensures ending { (how : Ending) × Ends (command_of words.now)
        (F.seen files.old) (F.seen files.new) (S.seen out.old) (S.seen out.new) result how }
{
    let Some(request) = asked(words) else {
        return told(&ending::Ending::Usage, out);
    };
    match carried_out(alloc, &request, files, out) {
        Ok(status) => status,
        Err(ending) => told(&ending, out),
    }
}

/// Carries a request out: reads its inputs in order, makes its product, writes its outputs in order
/// and then puts the report. Answers the status, or the ending of which no line has been put.
///
/// A command that puts lines while it works branches off here, and answers the status in the same
/// way.
fn carried_out<F: Files, S: Sink>(
    alloc: Global,
    request: &Request<'_>,
    files: &mut F,
    out: &mut S,
) -> Result<u8, ending::Ending>
    requires { IsTrue (F.seen files.old).is_sure
        → AreStored (F.seen files.old).held (inputs (asked_command request.now)) }
    ensures ended { IfOk result (λ status. (how : Ending) × Ends (Some (asked_command request.now))
        (F.seen files.old) (F.seen files.new) (S.seen out.old) (S.seen out.new) status how) }
    ensures comes { IfErr result (λ ending. Comes (asked_command request.now)
        (F.seen files.old) (F.seen files.new) (ending_of ending)) }
    ensures leaves { IfErr result (λ ending. Leaves (asked_command request.now)
        (F.seen files.old).held (F.seen files.new).held (ending_of ending)) }
    ensures unput { OnErr result (out.new ≡ out.old) }
{
    let inputs = request.inputs(alloc)?;
    let texts = match read_all(alloc, files, inputs.as_slice()) {
        Ok(texts) => texts,
        Err(ending) => return Err(ending),
    };
    if let CommandKind::Watch = request.kind {
        return follow(alloc, &texts, out);
    }
    let product = match product_of(alloc, request.kind, request.number, texts) {
        Ok(product) => product,
        Err(ending) => return Err(ending),
    };
    let roles = row_of(request.kind).writes;
    match write_all(alloc, files, roles, request.writes, &product.made) {
        Ok(()) => Ok(told(&ending::Ending::Done(product.report), out)),
        Err(ending) => Err(ending),
    }
}

/// Puts the lines of an ending, and answers the status. It takes no memory.
pub fn told<S: Sink>(ending: &ending::Ending, out: &mut S) -> u8
    ensures { Tells (S.seen out.old) (S.seen out.new) result (ending_of ending.now) }
{
    match (ending.put(out), ending) {
        (Err(SinkFailed), ending::Ending::Done(_)) => UNPUT,
        _ => ending.status(),
    }
}
