//! What `watch` makes of the texts of a task and of what is to be a plan for it.

ghost use Rattle.std.specs.Prelude.{◌≡◌, ◌≤◌, [], IfErr, IfOk, OnErr, length};
ghost use Rattle.p3_tree.specs.Reports.Watching.{watch_lines};
ghost use Rattle.p3_task.specs.Sides.{plan_byte_limit};
ghost use Rattle.p3_task.specs.Watching.{lines_of};
ghost use Rattle.p3_watch.specs.Watching.{AreLinesAsked};
ghost use Rattle.p3_cli.specs.Ending.{Done, Tells};
ghost use Rattle.p3_cli.specs.Following.{IsFollowed};
ghost use Rattle.p3_cli.specs.Refusing.{IsRefusedTask};
ghost use Rattle.p3_cli.specs.Texts.{all_texts};

use crate::Ending;
use crate::acceptance::{accepted, spelled_task};
use crate::status::{DONE, UNPUT};
use crate::texts::Texts;
use p3_base::{NoMemory, Side, Sink};
use p3_eval::Accepted;
use p3_watch::{Followed, Watch, line_numbers};
use std::alloc::Global;

/// Follows what a text says line by line, for the task that the two other texts spell: puts the
/// lines as it goes, and answers the status, or the ending of which no line has been put.
pub(crate) fn follow<S: Sink>(alloc: Global, texts: &Texts, out: &mut S) -> Result<u8, Ending>
    ensures followed { IfOk result (IsFollowed
        texts.now.domain.items texts.now.problem.items texts.now.plan.items
        (S.seen out.old) (S.seen out.new)) }
    ensures err { IfErr result (IsRefusedTask (all_texts texts.now)) }
    ensures unput { OnErr result (out.new ≡ out.old) }
{
    let task = spelled_task(alloc, Side::Source, texts)?;
    let accepted = accepted(alloc, Side::Source, texts, task)?;
    let status = followed(alloc, &accepted, texts.plan(), out)?;
    Ok(status)
}

/// Follows a text by a run of no step of an accepted task, and answers the status. Of the task's steps
/// those that the lines name are grounded, and no others.
fn followed<S: Sink>(
    alloc: Global,
    accepted: &Accepted,
    text: &[u8],
    out: &mut S,
) -> Result<u8, NoMemory>
    requires short { length text.now ≤ plan_byte_limit }
    ensures lines { IfOk result (λ status. Tells (S.seen out.old) (S.seen out.new) status
        (Done (watch_lines accepted.now.checked.task text.now))) }
    ensures unput { OnErr result (out.new ≡ out.old) }
{
    let numbers = line_numbers(alloc, accepted.checked(), text)?;
    let ground_task = accepted.ground_steps(alloc, numbers.as_slice())?;
    let mut watch = Watch::over(alloc, &accepted.grounded(&ground_task))?;
    Ok(put_lines(&mut watch, text, out))
}

/// Follows a text by a run of no step that has the steps of its lines, and answers the status.
fn put_lines<S: Sink>(watch: &mut Watch<'_>, text: &[u8], out: &mut S) -> u8
    requires begins { watch.old.run.plan ≡ [] }
    requires asked { AreLinesAsked watch.old.checked.now.task watch.old.run.task
        (lines_of text.now) }
    requires short { length text.now ≤ plan_byte_limit }
    ensures { Tells (S.seen out.old) (S.seen out.new) result
        (Done (watch_lines watch.old.checked.now.task text.now)) }
{
    match p3_watch::follow(watch, text, out) {
        Followed::Done => DONE,
        Followed::SinkFailed => UNPUT,
    }
}
