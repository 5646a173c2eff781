//! What shows the constraints and preferences of a plan, and the lines that say so.

ghost use Rattle.std.specs.Prelude.{◌≡◌, ◌≤◌, ◌++◌, OnErr, OnOk};
ghost use Rattle.p3_base.specs.Outside.{IsPartlyPut, IsPut, Rose};
ghost use Rattle.p3_tree.specs.Reports.Explanations.{showing_text};
ghost use Rattle.p3_tree.specs.Reports.Lines.{line};
ghost use Rattle.p3_reports.specs.Explained.{
  explain_text,
  name_text,
  reason_text,
  reasons_text,
  verdict_text,
};
ghost use Rattle.p3_reports.specs.Pieces.{pieces_text};

use crate::fault::{Fault, put_fault};
use crate::piece::{Piece, put_line, put_pieces};
use p3_base::{List, Name, Reason, Showing, Sink, SinkFailed, Subject};

/// What shows a constraint or a preference, with the name of the preference.
#[derive(Debug, Drop)]
pub struct NamedReason {
    /// What it is of, and what shows it.
    pub reason: Reason,
    /// The name of the preference, where it has one.
    pub name: Option<Name>,
}

/// What is found of a plan whose steps fit.
#[derive(Debug, Drop)]
pub struct ExplainReport {
    /// Its first fault; none where it is valid.
    pub fault: Option<Fault>,
    /// What shows its constraints and preferences, in their order.
    pub reasons: List<NamedReason>,
}

/// Puts the report of a plan whose steps fit.
pub(crate) fn put_explain_report<S: Sink>(
    report: &ExplainReport,
    out: &mut S,
) -> Result<(), SinkFailed>
    ensures ok { OnOk result (IsPut (explain_text report.now)
        (S.seen out.old).written (S.seen out.new).written) }
    ensures partly { OnErr result (IsPartlyPut (explain_text report.now)
        (S.seen out.old).written (S.seen out.new).written) }
    ensures failed { OnErr result (Rose (S.seen out.old).faults (S.seen out.new).faults) }
    ensures faults_grow { (S.seen out.old).faults ≤ (S.seen out.new).faults }
{
    put_verdict(&report.fault, out)?;
    put_reasons(report.reasons.items(), out)
}

/// Puts the line of a plan's first fault, or the one of a valid plan.
pub fn put_verdict<S: Sink>(fault: &Option<Fault>, out: &mut S) -> Result<(), SinkFailed>
    ensures ok { OnOk result (IsPut (verdict_text fault.now)
        (S.seen out.old).written (S.seen out.new).written) }
    ensures partly { OnErr result (IsPartlyPut (verdict_text fault.now)
        (S.seen out.old).written (S.seen out.new).written) }
    ensures failed { OnErr result (Rose (S.seen out.old).faults (S.seen out.new).faults) }
    ensures faults_grow { (S.seen out.old).faults ≤ (S.seen out.new).faults }
{
    match fault {
        None => put_pieces(&[Piece::Text("valid\n")], out),
        Some(fault) => put_fault(*fault, out),
    }
}

/// Puts a line for each reason.
fn put_reasons<S: Sink>(reasons: &[NamedReason], out: &mut S) -> Result<(), SinkFailed>
    ensures ok { OnOk result (IsPut (reasons_text reasons.now)
        (S.seen out.old).written (S.seen out.new).written) }
    ensures partly { OnErr result (IsPartlyPut (reasons_text reasons.now)
        (S.seen out.old).written (S.seen out.new).written) }
    ensures failed { OnErr result (Rose (S.seen out.old).faults (S.seen out.new).faults) }
    ensures faults_grow { (S.seen out.old).faults ≤ (S.seen out.new).faults }
{
    for reason in reasons {
        put_reason(reason, out)?;
    }
    Ok(())
}

/// Puts the line of a reason.
fn put_reason<S: Sink>(named: &NamedReason, out: &mut S) -> Result<(), SinkFailed>
    ensures ok { OnOk result (IsPut (reason_text named.now)
        (S.seen out.old).written (S.seen out.new).written) }
    ensures partly { OnErr result (IsPartlyPut (reason_text named.now)
        (S.seen out.old).written (S.seen out.new).written) }
    ensures failed { OnErr result (Rose (S.seen out.old).faults (S.seen out.new).faults) }
    ensures faults_grow { (S.seen out.old).faults ≤ (S.seen out.new).faults }
{
    let showing = named.reason.showing;
    let name = name_bytes(&named.name);
    match named.reason.subject {
        Subject::Hard(number) => put_showing(
            &[
                Piece::Text("constraint "),
                Piece::Number(number as u64),
                Piece::Text(": "),
            ],
            showing,
            out,
        ),
        Subject::Soft { instance, part } => put_showing(
            &[
                Piece::Text("instance "),
                Piece::Number(instance as u64),
                Piece::Text(" "),
                Piece::Bytes(name),
                Piece::Text(" part "),
                Piece::Number(part as u64),
                Piece::Text(": "),
            ],
            showing,
            out,
        ),
        Subject::Pre { step, pref } => put_showing(
            &[
                Piece::Text("step "),
                Piece::Number(step as u64),
                Piece::Text(" "),
                Piece::Bytes(name),
                Piece::Text(" number "),
                Piece::Number(pref as u64),
                Piece::Text(": "),
            ],
            showing,
            out,
        ),
    }
}

/// Gives the bytes of a preference's name, or of the sign for one without a name.
fn name_bytes(name: &Option<Name>) -> &[u8]
    ensures { result.now ≡ name_text name.now }
{
    match name {
        None => b"-".as_slice(),
        Some(name) => name.bytes(),
    }
}

/// Puts a line of what it is of, and what shows it.
fn put_showing<S: Sink>(
    subject: &[Piece<'_>],
    showing: Showing,
    out: &mut S,
) -> Result<(), SinkFailed>
    ensures ok { OnOk result (IsPut (line (pieces_text subject.now ++ showing_text showing))
        (S.seen out.old).written (S.seen out.new).written) }
    ensures partly { OnErr result
        (IsPartlyPut (line (pieces_text subject.now ++ showing_text showing))
        (S.seen out.old).written (S.seen out.new).written) }
    ensures failed { OnErr result (Rose (S.seen out.old).faults (S.seen out.new).faults) }
    ensures faults_grow { (S.seen out.old).faults ≤ (S.seen out.new).faults }
{
    match showing {
        Showing::Holds => put_line(subject, &[Piece::Text("holds")], out),
        Showing::HoldsAt(state) => put_line(
            subject,
            &[Piece::Text("holds in state "), Piece::Number(state as u64)],
            out,
        ),
        Showing::HoldsNowhere => put_line(subject, &[Piece::Text("holds in no state")], out),
        Showing::FailsAt(state) => put_line(
            subject,
            &[Piece::Text("fails in state "), Piece::Number(state as u64)],
            out,
        ),
        Showing::Again { first, gap, again } => put_line(
            subject,
            &[
                Piece::Text("holds in states "),
                Piece::Number(first as u64),
                Piece::Text(" and "),
                Piece::Number(again as u64),
                Piece::Text(", not in state "),
                Piece::Number(gap as u64),
            ],
            out,
        ),
    }
}
