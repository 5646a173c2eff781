//! The blocks that say what lines come to.

ghost use Rattle.std.specs.Prelude.{◌≤◌, OnErr, OnOk, length};
ghost use Rattle.p3_base.specs.Outside.{IsPartlyPut, IsPut, Rose};
ghost use Rattle.p3_tree.specs.Reports.Refusals.{refusal_line};
ghost use Rattle.p3_tree.specs.Reports.Watching.{block, moved};
ghost use Rattle.p3_task.specs.Sides.{plan_byte_limit};
ghost use Rattle.p3_watch.specs.Lines.{IsInLine, IsToldThere};
ghost use Rattle.p3_watch.specs.Watching.{OfAnswer};

use crate::evaluated::put_judged;
use crate::lines::LineStart;
use crate::run_report::named_fault;
use crate::watch::{Line, Watch};
use p3_base::{Pos, Refusal, Sink, SinkFailed};
use p3_reports::{PlacedRefusal, StackSink, put_fault, put_placed_refusal};

/// As many bytes as most blocks have at most.
const BLOCK_ROOM: usize = 4096;

/// Puts the block of a line of a text, which has come to this. Where it has no more bytes than most
/// blocks, it is put at once; that of a blank line is not put.
pub(crate) fn put_block<S: Sink>(
    watch: &Watch<'_>,
    text: &[u8],
    start: LineStart,
    line: Line,
    out: &mut S,
) -> Result<(), SinkFailed>
    requires short { length text.now ≤ plan_byte_limit }
    requires told { IsToldThere text.now start line }
    ensures ok { OnOk result (OfAnswer watch.now.checked.now.task watch.now.run line
        (λ plan answer. IsPut
        (block watch.now.checked.now.task text.now start.offset plan answer)
        (S.seen out.old).written (S.seen out.new).written)) }
    ensures partly { OnErr result (OfAnswer watch.now.checked.now.task watch.now.run line
        (λ plan answer. IsPartlyPut
        (block watch.now.checked.now.task text.now start.offset plan answer)
        (S.seen out.old).written (S.seen out.new).written)) }
    ensures failed { OnErr result (Rose (S.seen out.old).faults (S.seen out.new).faults) }
    ensures faults_grow { (S.seen out.old).faults ≤ (S.seen out.new).faults }
{
    if let Line::Blank = line {
        return Ok(());
    }
    let mut room = StackSink::<BLOCK_ROOM>::new();
    match put_lines(watch, text, start, line, &mut room) {
        Ok(()) => out.put(room.bytes()),
        Err(SinkFailed) => put_lines(watch, text, start, line, out),
    }
}

/// Puts the block of a line of a text, each line by itself.
fn put_lines<S: Sink>(
    watch: &Watch<'_>,
    text: &[u8],
    start: LineStart,
    line: Line,
    out: &mut S,
) -> Result<(), SinkFailed>
    requires short { length text.now ≤ plan_byte_limit }
    requires told { IsToldThere text.now start line }
    ensures ok { OnOk result (OfAnswer watch.now.checked.now.task watch.now.run line
        (λ plan answer. IsPut
        (block watch.now.checked.now.task text.now start.offset plan answer)
        (S.seen out.old).written (S.seen out.new).written)) }
    ensures partly { OnErr result (OfAnswer watch.now.checked.now.task watch.now.run line
        (λ plan answer. IsPartlyPut
        (block watch.now.checked.now.task text.now start.offset plan answer)
        (S.seen out.old).written (S.seen out.new).written)) }
    ensures failed { OnErr result (Rose (S.seen out.old).faults (S.seen out.new).faults) }
    ensures faults_grow { (S.seen out.old).faults ≤ (S.seen out.new).faults }
{
    match line {
        Line::Blank => Ok(()),
        Line::Done => put_judged(watch.checked(), watch.run(), out),
        Line::Invalid(fault) => put_fault(named_fault(&fault), out),
        Line::Refused(refusal) => put_refused(text, start, &refusal, out),
    }
}

/// Puts the line of a refusal that counts from the start of its line.
fn put_refused<S: Sink>(
    text: &[u8],
    start: LineStart,
    refusal: &Refusal,
    out: &mut S,
) -> Result<(), SinkFailed>
    requires short { length text.now ≤ plan_byte_limit }
    requires place { IsInLine text.now start refusal.now }
    ensures ok { OnOk result (IsPut (refusal_line text.now (moved start.offset refusal.now))
        (S.seen out.old).written (S.seen out.new).written) }
    ensures partly { OnErr result
        (IsPartlyPut (refusal_line text.now (moved start.offset refusal.now))
        (S.seen out.old).written (S.seen out.new).written) }
    ensures failed { OnErr result (Rose (S.seen out.old).faults (S.seen out.new).faults) }
    ensures faults_grow { (S.seen out.old).faults ≤ (S.seen out.new).faults }
{
    let moved = Refusal {
        code: refusal.code,
        pos: Pos {
            role: refusal.pos.role,
            offset: start.offset + refusal.pos.offset,
        },
        len: refusal.len,
    };
    let placed = PlacedRefusal::at(&moved, text, start.row, refusal.pos.offset + 1);
    put_placed_refusal(&placed, out)
}
