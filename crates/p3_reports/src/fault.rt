//! Why a plan is not valid, and the lines that say so.

ghost use Rattle.std.specs.Prelude.{◌≤◌, OnErr, OnOk};
ghost use Rattle.p3_base.specs.Outside.{IsPartlyPut, IsPut, Rose};
ghost use Rattle.p3_tree.specs.Reports.Plans.{fault_line};
ghost use Rattle.p3_tree.specs.Reports.Refusals.{lifted_fault_line};
ghost use Rattle.p3_reports.specs.Faults.{fault_of};

use crate::piece::{Piece, put_pieces};
use p3_base::{Sink, SinkFailed};

/// Why a step does not fit.
#[derive(Clone, Copy, Debug, PartialEq, Eq)]
pub enum Misfit {
    /// No action has the step's name.
    UnknownAction,
    /// The arguments are not as many as the parameters, or not objects of their types.
    Arguments,
    /// The hard precondition does not hold before the step.
    Precondition,
    /// The step has no cost.
    NoCost,
}

/// The first fault of a plan that is not valid.
#[derive(Clone, Copy, Debug, PartialEq, Eq)]
pub enum Fault {
    /// The step of this number, counted from 1, does not fit.
    AtStep(u32, Misfit),
    /// The hard goal does not hold at the end.
    AtGoal,
    /// The goal holds, and this is the first hard constraint that is not satisfied, counted from 0.
    AtConstraint(usize),
}

/// Puts the line of the first fault of a plan.
pub fn put_fault<S: Sink>(fault: Fault, out: &mut S) -> Result<(), SinkFailed>
    ensures ok { OnOk result (IsPut (fault_line (fault_of fault))
        (S.seen out.old).written (S.seen out.new).written) }
    ensures partly { OnErr result (IsPartlyPut (fault_line (fault_of fault))
        (S.seen out.old).written (S.seen out.new).written) }
    ensures failed { OnErr result (Rose (S.seen out.old).faults (S.seen out.new).faults) }
    ensures faults_grow { (S.seen out.old).faults ≤ (S.seen out.new).faults }
{
    match fault {
        Fault::AtStep(number, misfit) => put_pieces(
            &[
                Piece::Text("invalid step "),
                Piece::Number(number as u64),
                Piece::Text(": "),
                Piece::Misfit(misfit),
                Piece::Text("\n"),
            ],
            out,
        ),
        Fault::AtGoal => put_pieces(&[Piece::Text("invalid: goal\n")], out),
        Fault::AtConstraint(number) => put_pieces(
            &[
                Piece::Text("invalid: constraint "),
                Piece::Number(number as u64),
                Piece::Text("\n"),
            ],
            out,
        ),
    }
}

/// Puts the line that refuses a plan by the first fault of its lifted plan.
pub(crate) fn put_lifted_fault<S: Sink>(fault: Fault, out: &mut S) -> Result<(), SinkFailed>
    ensures ok { OnOk result (IsPut (lifted_fault_line (fault_line (fault_of fault)))
        (S.seen out.old).written (S.seen out.new).written) }
    ensures partly { OnErr result (IsPartlyPut (lifted_fault_line (fault_line (fault_of fault)))
        (S.seen out.old).written (S.seen out.new).written) }
    ensures failed { OnErr result (Rose (S.seen out.old).faults (S.seen out.new).faults) }
    ensures faults_grow { (S.seen out.old).faults ≤ (S.seen out.new).faults }
{
    put_pieces(&[Piece::Text("refused 20 mismatch: ")], out)?;
    put_fault(fault, out)
}
