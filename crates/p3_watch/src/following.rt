//! Following a text line by line.

ghost use Rattle.std.specs.Prelude.{◌≡◌, ◌≤◌, [], ◌++◌, length, IfOk, OnOk};
ghost use Rattle.std.specs.List.{cons_option};
ghost use Rattle.p3_base.specs.Outside.{IsPartlyPut, Rose, with_put};
ghost use Rattle.p3_task.specs.Limits.{step_count};
ghost use Rattle.p3_tree.specs.Reports.Watching.{watch_lines};
ghost use Rattle.p3_task.specs.Sides.{plan_byte_limit, step_count_limit};
ghost use Rattle.p3_task.specs.Watching.{line_text, lines_of};
ghost use Rattle.p3_watch.specs.Watching.{
  AreLinesAsked,
  AreLinesNumbered,
  IsNumberOfLine,
  number_in,
};

use crate::blocks::put_block;
use crate::lines::LineStart;
use crate::watch::Watch;
use p3_base::{NoMemory, Sink, SinkFailed};
use p3_plans::{LineStep, line_step};
use p3_types::{Checked, Found};
use std::alloc::Global;

/// How following a text ends.
#[derive(Clone, Copy, Debug)]
pub enum Followed {
    /// All blocks are put.
    Done,
    /// The sink failed: a first part of them is put.
    SinkFailed,
}

/// Follows the text of a plan line by line, and puts behind each line what it comes to. It takes no
/// memory.
pub fn follow<S: Sink>(watch: &mut Watch<'_>, text: &[u8], out: &mut S) -> Followed
    requires begins { watch.old.run.plan ≡ [] }
    requires asked { AreLinesAsked watch.old.checked.now.task watch.old.run.task
        (lines_of text.now) }
    requires short { length text.now ≤ plan_byte_limit }
    ensures done { result ≡ Followed.Done → (S.seen out.new).written
        ≡ with_put (watch_lines watch.old.checked.now.task text.now)
        (S.seen out.old).written }
    ensures partly { result ≡ Followed.SinkFailed → IsPartlyPut
        (watch_lines watch.old.checked.now.task text.now)
        (S.seen out.old).written (S.seen out.new).written }
    ensures failed { result ≡ Followed.SinkFailed
        → Rose (S.seen out.old).faults (S.seen out.new).faults }
    ensures faults_grow { (S.seen out.old).faults ≤ (S.seen out.new).faults }
{
    let mut start = LineStart::of_text();
    while !start.is_end(text) {
        let line = start.line(text);
        let told = watch.line(line);
        match put_block(watch, text, start, told, out) {
            Ok(()) => start = start.behind(text, line.len()),
            Err(SinkFailed) => return Followed::SinkFailed,
        }
    }
    Followed::Done
}

/// The numbers of the steps that lines of a text have. One that has no number, and a line that is
/// refused, is passed over.
///
/// # Errors
///
/// Want of memory.
pub fn line_numbers(alloc: Global, task: &Checked, text: &[u8]) -> Result<Vec<u32>, NoMemory>
    requires few { step_count task.now.task ≤ step_count_limit }
    requires short { length text.now ≤ plan_byte_limit }
    ensures { IfOk result (λ numbers.
        AreLinesNumbered task.now.task numbers.items (lines_of text.now)) }
{
    let mut numbers = Vec::new(alloc);
    let mut start = LineStart::of_text();
    while !start.is_end(text) {
        let line = start.line(text);
        push_number(&mut numbers, line_number(task, line))?;
        start = start.behind(text, line.len());
    }
    Ok(numbers)
}

/// The number stands behind the others, where there is one.
fn push_number(numbers: &mut Vec<u32>, number: Option<u32>) -> Result<(), NoMemory>
    ensures { OnOk result (numbers.new.items ≡ numbers.old.items ++ cons_option number []) }
{
    if let Some(number) = number {
        numbers.push(number)?;
    }
    Ok(())
}

/// The number of the step of a line, if it has one.
fn line_number(task: &Checked, line: &[u8]) -> Option<u32>
    requires few { step_count task.now.task ≤ step_count_limit }
    requires short { length line.now ≤ plan_byte_limit }
    ensures { IsNumberOfLine task.now.task (line_text line.now) result }
{
    match line_step(line) {
        LineStep::Step(step) => number_of(task.find_text(step.text)),
        LineStep::Blank | LineStep::Bad(_) => None,
    }
}

/// The number that is found, if it is one.
fn number_of(found: Found) -> Option<u32>
    ensures { result ≡ number_in found }
{
    match found {
        Found::Number(number) => Some(number),
        Found::UnknownAction | Found::Arguments => None,
    }
}
