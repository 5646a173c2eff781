//! The states that show what an account says.

ghost use Rattle.std.specs.Prelude.{◌≡◌, ◌≤◌, OnErr, OnOk};
ghost use Rattle.p3_base.specs.Outside.{IsPartlyPut, IsPut, Rose};
ghost use Rattle.p3_accounts.specs.States.{
  operand_shown,
  shown_by,
  shown_in,
  shown_text,
  state_line,
};
ghost use Rattle.p3_accounts.specs.Vocabularies.{vocabulary};

use crate::item::{Item, Printed, put_all, put_items};
use crate::operator::OperatorKind;
use crate::terms::Terms;
use p3_base::{List, Sink, SinkFailed};
use p3_reasons::{Evidence, Literal, Operand};

/// A visited state, and the literals that decide a formula in it.
#[derive(Debug, Drop)]
pub struct ShownState {
    /// The state, counted from 0.
    pub state: u32,
    /// Which formula of an operator over two; none where there is one alone.
    pub operand: Option<Operand>,
    /// The literals.
    pub literals: List<Literal>,
}

/// Where it shows.
#[derive(Debug, Drop)]
pub enum Shown {
    /// In no state, though it should in some.
    Nowhere,
    /// In these states; where there are none, no state is needed.
    States(List<ShownState>),
}

impl ShownState {
    /// Makes that of a formula of an operator, by what shows it.
    pub fn by(operator: OperatorKind, evidence: Evidence, literals: List<Literal>) -> ShownState
        ensures { result ≡ shown_by operator evidence literals }
    {
        ShownState {
            state: evidence.state,
            operand: shown_operand(operator, evidence.operand),
            literals,
        }
    }

    /// Makes that of a precondition, of the goal or of a preference of a step.
    pub fn of(state: u32, literals: List<Literal>) -> ShownState
        ensures { result ≡ shown_in state literals }
    {
        ShownState {
            state,
            operand: None,
            literals,
        }
    }
}

/// Which of two formulas is meant.
fn shown_operand(operator: OperatorKind, operand: Operand) -> Option<Operand>
    ensures { result ≡ operand_shown operator operand }
{
    match operator {
        OperatorKind::One(_) => None,
        OperatorKind::Two(_) => Some(operand),
    }
}

impl Printed for Literal {
    ghost use Rattle.p3_accounts.specs.States.{literal_line};

    ghost text = { literal_line };

    /// Puts its line.
    fn put<S: Sink>(&self, terms: &Terms<'_>, out: &mut S) -> Result<(), SinkFailed> {
        put_items(
            &[
                Item::Text("    "),
                Item::Truth(self.holds),
                Item::Text(": "),
                Item::Atom(&self.atom),
                Item::Text("\n"),
            ],
            terms,
            out,
        )
    }
}

impl Printed for ShownState {
    ghost use Rattle.p3_accounts.specs.States.{state_text};

    ghost text = { state_text };

    /// Puts its line, and a line for each literal.
    fn put<S: Sink>(&self, terms: &Terms<'_>, out: &mut S) -> Result<(), SinkFailed> {
        put_state_line(self, terms, out)?;
        put_all(self.literals.items(), terms, out)
    }
}

/// Puts the line that says which state it is.
fn put_state_line<S: Sink>(
    shown: &ShownState,
    terms: &Terms<'_>,
    out: &mut S,
) -> Result<(), SinkFailed>
    ensures ok { OnOk result (IsPut (state_line (vocabulary terms.now) shown.now)
        (S.seen out.old).written (S.seen out.new).written) }
    ensures partly { OnErr result (IsPartlyPut (state_line (vocabulary terms.now) shown.now)
        (S.seen out.old).written (S.seen out.new).written) }
    ensures failed { OnErr result (Rose (S.seen out.old).faults (S.seen out.new).faults) }
    ensures faults_grow { (S.seen out.old).faults ≤ (S.seen out.new).faults }
{
    put_items(
        &[
            Item::Text("  state "),
            Item::Number(shown.state),
            Item::Text(", "),
            Item::Moment(shown.state),
            Item::Operand(shown.operand),
            Item::Text(":\n"),
        ],
        terms,
        out,
    )
}

/// Puts where it shows.
pub(crate) fn put_shown<S: Sink>(
    shown: &Shown,
    terms: &Terms<'_>,
    out: &mut S,
) -> Result<(), SinkFailed>
    ensures ok { OnOk result (IsPut (shown_text (vocabulary terms.now) shown.now)
        (S.seen out.old).written (S.seen out.new).written) }
    ensures partly { OnErr result (IsPartlyPut (shown_text (vocabulary terms.now) shown.now)
        (S.seen out.old).written (S.seen out.new).written) }
    ensures failed { OnErr result (Rose (S.seen out.old).faults (S.seen out.new).faults) }
    ensures faults_grow { (S.seen out.old).faults ≤ (S.seen out.new).faults }
{
    match shown {
        Shown::Nowhere => put_items(&[Item::Text("  in no state\n")], terms, out),
        Shown::States(states) => put_all(states.items(), terms, out),
    }
}
