//! The lines that say why and where an input is refused.

ghost use Rattle.std.specs.Prelude.{◌≤◌, OnErr, OnOk};
ghost use Rattle.p3_base.specs.Outside.{IsPartlyPut, IsPut, Rose};
ghost use Rattle.p3_tree.specs.Reports.Refusals.{not_plain_line, numbers_differ_line};
ghost use Rattle.p3_reports.specs.Rejections.{placed_line, rejection_line};

use crate::fault::{Fault, put_lifted_fault};
use crate::piece::{Piece, put_pieces};
use crate::placed::PlacedRefusal;
use p3_base::{Sink, SinkFailed};

/// Why what was read is refused.
#[derive(Debug, Drop)]
pub enum Rejection {
    /// A text is refused at a place.
    At(PlacedRefusal),
    /// A written task is not plain.
    NotPlain,
    /// A lifted plan has a fault.
    LiftedFault(Fault),
    /// What a plan of a written task costs is not the loss of the lifted plan above the base.
    NumbersDiffer {
        /// What the plan costs.
        cost: i128,
        /// The loss of the lifted plan above the base.
        loss: i128,
    },
}

/// Puts the line that says why what was read is refused.
pub fn put_rejection<S: Sink>(rejection: &Rejection, out: &mut S) -> Result<(), SinkFailed>
    ensures ok { OnOk result (IsPut (rejection_line rejection.now)
        (S.seen out.old).written (S.seen out.new).written) }
    ensures partly { OnErr result (IsPartlyPut (rejection_line rejection.now)
        (S.seen out.old).written (S.seen out.new).written) }
    ensures failed { OnErr result (Rose (S.seen out.old).faults (S.seen out.new).faults) }
    ensures faults_grow { (S.seen out.old).faults ≤ (S.seen out.new).faults }
{
    match rejection {
        Rejection::At(placed) => put_placed_refusal(placed, out),
        Rejection::NotPlain => put_not_plain(out),
        Rejection::LiftedFault(fault) => put_lifted_fault(*fault, out),
        Rejection::NumbersDiffer { cost, loss } => put_numbers_differ(*cost, *loss, out),
    }
}

/// Puts the line of a refusal at its place.
pub fn put_placed_refusal<S: Sink>(placed: &PlacedRefusal, out: &mut S) -> Result<(), SinkFailed>
    ensures ok { OnOk result (IsPut (placed_line placed.now)
        (S.seen out.old).written (S.seen out.new).written) }
    ensures partly { OnErr result (IsPartlyPut (placed_line placed.now)
        (S.seen out.old).written (S.seen out.new).written) }
    ensures failed { OnErr result (Rose (S.seen out.old).faults (S.seen out.new).faults) }
    ensures faults_grow { (S.seen out.old).faults ≤ (S.seen out.new).faults }
{
    put_pieces(
        &[
            Piece::Text("refused "),
            Piece::Why(placed.code),
            Piece::Text(": "),
            Piece::File(placed.role),
            Piece::Text(" "),
            Piece::Number(placed.row as u64),
            Piece::Text(":"),
            Piece::Number(placed.column as u64),
            Piece::Text(" "),
            Piece::Bytes(placed.shown.as_slice()),
            Piece::Text("\n"),
        ],
        out,
    )
}

/// Puts the line that refuses a written task which is not plain.
fn put_not_plain<S: Sink>(out: &mut S) -> Result<(), SinkFailed>
    ensures ok { OnOk result (IsPut not_plain_line
        (S.seen out.old).written (S.seen out.new).written) }
    ensures partly { OnErr result (IsPartlyPut not_plain_line
        (S.seen out.old).written (S.seen out.new).written) }
    ensures failed { OnErr result (Rose (S.seen out.old).faults (S.seen out.new).faults) }
    ensures faults_grow { (S.seen out.old).faults ≤ (S.seen out.new).faults }
{
    put_pieces(&[Piece::Text("refused 19 not plain\n")], out)
}

/// Puts the line that refuses a plan whose cost in the written task is not the loss of the lifted
/// plan above the base.
fn put_numbers_differ<S: Sink>(cost: i128, loss: i128, out: &mut S) -> Result<(), SinkFailed>
    ensures ok { OnOk result (IsPut (numbers_differ_line cost loss)
        (S.seen out.old).written (S.seen out.new).written) }
    ensures partly { OnErr result (IsPartlyPut (numbers_differ_line cost loss)
        (S.seen out.old).written (S.seen out.new).written) }
    ensures failed { OnErr result (Rose (S.seen out.old).faults (S.seen out.new).faults) }
    ensures faults_grow { (S.seen out.old).faults ≤ (S.seen out.new).faults }
{
    put_pieces(
        &[
            Piece::Text("refused 20 mismatch: cost "),
            Piece::Signed(cost),
            Piece::Text(" loss "),
            Piece::Signed(loss),
            Piece::Text("\n"),
        ],
        out,
    )
}
