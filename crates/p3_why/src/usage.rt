//! The lines of usage.

ghost use Rattle.std.specs.Prelude.{◌≤◌, OnErr, OnOk};
ghost use Rattle.p3_base.specs.Outside.{IsPartlyPut, IsPut, Rose};
ghost use Rattle.p3_why.specs.Ending.{usage_lines};

use p3_base::{Sink, SinkFailed};
use p3_reports::{Piece, put_pieces};

/// The lines of usage, one for each question.
const USAGE_LINES: &str = "usage: pddl3why plan D P PLAN\n       pddl3why names D P\n";

/// Puts the lines of usage. It takes no memory.
pub(crate) fn put_usage<S: Sink>(out: &mut S) -> Result<(), SinkFailed>
    ensures ok { OnOk result (IsPut usage_lines
        (S.seen out.old).written (S.seen out.new).written) }
    ensures partly { OnErr result (IsPartlyPut usage_lines
        (S.seen out.old).written (S.seen out.new).written) }
    ensures failed { OnErr result (Rose (S.seen out.old).faults (S.seen out.new).faults) }
    ensures faults_grow { (S.seen out.old).faults ≤ (S.seen out.new).faults }
{
    put_pieces(&[Piece::Text(USAGE_LINES)], out)
}
