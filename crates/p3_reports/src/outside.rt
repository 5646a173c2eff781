//! The lines on what the outside did not give or take: words, files and memory.

ghost use Rattle.std.specs.Prelude.{◌≤◌, OnErr, OnOk};
ghost use Rattle.p3_base.specs.Outside.{IsPartlyPut, IsPut, Rose};
ghost use Rattle.p3_tree.specs.Reports.Lines.{
  read_fault_line,
  usage_lines,
  want_of_memory_line,
  write_fault_line,
};
ghost use Rattle.p3_tree.specs.Reports.Refusals.{too_long_line};

use crate::piece::{Piece, put_pieces};
use p3_base::{Role, Sink, SinkFailed};

/// What is put where the words have none of the listed shapes.
const USAGE_LINES: &str = "usage: pddl3c compile D P OD OP
       pddl3c lift D P OD OP PLAN OUT
       pddl3c embed D P PLAN OD OP OUT
       pddl3c evaluate D P PLAN
       pddl3c generate N D P PLAN
       pddl3c compile-flat D P OD OP
       pddl3c explain D P PLAN
       pddl3c watch D P PLAN
";

/// Puts the line that says that an input was not read.
pub fn put_read_fault<S: Sink>(role: Role, out: &mut S) -> Result<(), SinkFailed>
    ensures ok { OnOk result (IsPut (read_fault_line role)
        (S.seen out.old).written (S.seen out.new).written) }
    ensures partly { OnErr result (IsPartlyPut (read_fault_line role)
        (S.seen out.old).written (S.seen out.new).written) }
    ensures failed { OnErr result (Rose (S.seen out.old).faults (S.seen out.new).faults) }
    ensures faults_grow { (S.seen out.old).faults ≤ (S.seen out.new).faults }
{
    put_pieces(
        &[
            Piece::Text("read fault: "),
            Piece::File(role),
            Piece::Text("\n"),
        ],
        out,
    )
}

/// Puts the line that says that an output was not written.
pub fn put_write_fault<S: Sink>(role: Role, out: &mut S) -> Result<(), SinkFailed>
    ensures ok { OnOk result (IsPut (write_fault_line role)
        (S.seen out.old).written (S.seen out.new).written) }
    ensures partly { OnErr result (IsPartlyPut (write_fault_line role)
        (S.seen out.old).written (S.seen out.new).written) }
    ensures failed { OnErr result (Rose (S.seen out.old).faults (S.seen out.new).faults) }
    ensures faults_grow { (S.seen out.old).faults ≤ (S.seen out.new).faults }
{
    put_pieces(
        &[
            Piece::Text("write fault: "),
            Piece::File(role),
            Piece::Text("\n"),
        ],
        out,
    )
}

/// Puts the line that refuses an input with more bytes than the limit.
pub fn put_too_long<S: Sink>(role: Role, out: &mut S) -> Result<(), SinkFailed>
    ensures ok { OnOk result (IsPut (too_long_line role)
        (S.seen out.old).written (S.seen out.new).written) }
    ensures partly { OnErr result (IsPartlyPut (too_long_line role)
        (S.seen out.old).written (S.seen out.new).written) }
    ensures failed { OnErr result (Rose (S.seen out.old).faults (S.seen out.new).faults) }
    ensures faults_grow { (S.seen out.old).faults ≤ (S.seen out.new).faults }
{
    put_pieces(
        &[
            Piece::Text("refused 21 file too long: "),
            Piece::File(role),
            Piece::Text("\n"),
        ],
        out,
    )
}

/// Puts the line that says that memory is wanting.
pub fn put_no_memory<S: Sink>(out: &mut S) -> Result<(), SinkFailed>
    ensures ok { OnOk result (IsPut want_of_memory_line
        (S.seen out.old).written (S.seen out.new).written) }
    ensures partly { OnErr result (IsPartlyPut want_of_memory_line
        (S.seen out.old).written (S.seen out.new).written) }
    ensures failed { OnErr result (Rose (S.seen out.old).faults (S.seen out.new).faults) }
    ensures faults_grow { (S.seen out.old).faults ≤ (S.seen out.new).faults }
{
    put_pieces(&[Piece::Text("want of memory\n")], out)
}

/// Puts the lines that say which words are read.
pub fn put_usage<S: Sink>(out: &mut S) -> Result<(), SinkFailed>
    ensures ok { OnOk result (IsPut usage_lines
        (S.seen out.old).written (S.seen out.new).written) }
    ensures partly { OnErr result (IsPartlyPut usage_lines
        (S.seen out.old).written (S.seen out.new).written) }
    ensures failed { OnErr result (Rose (S.seen out.old).faults (S.seen out.new).faults) }
    ensures faults_grow { (S.seen out.old).faults ≤ (S.seen out.new).faults }
{
    put_pieces(&[Piece::Text(USAGE_LINES)], out)
}
