//! What is kept of the states visited so far for one operator.

ghost use Rattle.std.specs.Prelude.{◌≡◌, length};
ghost use Rattle.p3_formula.specs.Modals.{IsModalBelow};
ghost use Rattle.p3_run.specs.Stages as kept;

use p3_formula::{Bits, Form, GroundModal, eval};

/// What is kept of the states visited so far for one operator.
#[derive(Clone, Copy, Debug, Drop)]
pub(crate) struct Stage {
    /// Whether the operator is satisfied by them.
    pub(crate) accepts: bool,
    /// Whether the formula that is to come first, or that is to hold once at most, has held.
    pub(crate) seen: bool,
    /// Whether the formula that is to hold once at most holds in the last of them.
    pub(crate) held: bool,
}

/// Before any state.
pub(crate) fn fresh(modal: &GroundModal) -> Stage
    ensures { result ≡ kept.fresh modal.now }
{
    accepting(!matches!(modal, GroundModal::Sometime(_)))
}

/// A stage of which nothing but its answer matters.
fn accepting(accepts: bool) -> Stage
    ensures { result ≡ kept.accepting accepts }
{
    Stage {
        accepts,
        seen: false,
        held: false,
    }
}

/// One state more.
pub(crate) fn next(modal: &GroundModal, state: &Bits, stage: Stage) -> Stage
    requires { IsModalBelow (length state.now) modal.now }
    ensures { result ≡ kept.next_stage state.now modal.now stage }
{
    match modal {
        GroundModal::AtEnd(form) => accepting(eval(form, state)),
        GroundModal::Always(form) => accepting(stage.accepts && eval(form, state)),
        GroundModal::Sometime(form) => accepting(stage.accepts || eval(form, state)),
        GroundModal::AtMostOnce(form) => next_once(eval(form, state), stage),
        GroundModal::SometimeAfter(first, second) => accepting(
            eval(second, state) || stage.accepts && !eval(first, state),
        ),
        GroundModal::SometimeBefore(first, second) => next_before(
            eval(first, state),
            eval(second, state),
            stage,
        ),
    }
}

/// A formula that is to hold once at most does so, or does not, in one state more.
fn next_once(holds: bool, stage: Stage) -> Stage
    ensures { result ≡ kept.next_once holds stage }
{
    Stage {
        accepts: stage.accepts && !(stage.seen && !stage.held && holds),
        seen: stage.seen || holds,
        held: holds,
    }
}

/// A formula that wants another before it, and that other, in one state more.
fn next_before(holds: bool, other: bool, stage: Stage) -> Stage
    ensures { result ≡ kept.next_before holds other stage }
{
    Stage {
        accepts: stage.accepts && !(holds && !stage.seen),
        seen: stage.seen || other,
        held: false,
    }
}
