//! Which formulas of an operator show why it is satisfied or not, and in which states.

ghost use Rattle.std.specs.Prelude.{◌≡◌, IfOk};
ghost use Rattle.p3_reasons.specs.Evidences.{evidence_of, of_one, of_response, of_precedence};

use p3_base::{NoMemory, Operator, Showing};
use std::alloc::Global;

/// Which formula of an operator.
#[derive(Clone, Copy, Debug, PartialEq, Eq)]
pub enum Operand {
    /// The first, or the only one.
    First,
    /// The second.
    Second,
}

/// A formula of an operator holds in a state, or does not.
#[derive(Clone, Copy, Debug, PartialEq, Eq)]
pub struct Evidence {
    /// The state, counted from 0.
    pub state: u32,
    /// Which formula.
    pub operand: Operand,
    /// Whether it holds there.
    pub holds: bool,
}

/// What shows it of an operator over one formula.
fn one_evidence(alloc: Global, showing: Showing) -> Result<Vec<Evidence>, NoMemory>
    ensures { IfOk result (λ list. list.items ≡ of_one showing) }
{
    let operand = Operand::First;
    let mut list = Vec::new(alloc);
    match showing {
        Showing::HoldsAt(state) => list.push(Evidence {
            state,
            operand,
            holds: true,
        })?,
        Showing::FailsAt(state) => list.push(Evidence {
            state,
            operand,
            holds: false,
        })?,
        Showing::Again { first, gap, again } => {
            list.push(Evidence {
                state: first,
                operand,
                holds: true,
            })?;
            list.push(Evidence {
                state: gap,
                operand,
                holds: false,
            })?;
            list.push(Evidence {
                state: again,
                operand,
                holds: true,
            })?;
        }
        Showing::Holds => {}
        Showing::HoldsNowhere => {}
    }
    Ok(list)
}

/// What shows that the first formula holds where the second does not behind it.
fn response_evidence(alloc: Global, showing: Showing) -> Result<Vec<Evidence>, NoMemory>
    ensures { IfOk result (λ list. list.items ≡ of_response showing) }
{
    let mut list = Vec::new(alloc);
    if let Showing::FailsAt(state) = showing {
        list.push(Evidence {
            state,
            operand: Operand::First,
            holds: true,
        })?;
        list.push(Evidence {
            state,
            operand: Operand::Second,
            holds: false,
        })?;
    }
    Ok(list)
}

/// What shows that the first formula holds where the second did not before it.
fn precedence_evidence(alloc: Global, showing: Showing) -> Result<Vec<Evidence>, NoMemory>
    ensures { IfOk result (λ list. list.items ≡ of_precedence showing) }
{
    let mut list = Vec::new(alloc);
    if let Showing::FailsAt(state) = showing {
        list.push(Evidence {
            state,
            operand: Operand::First,
            holds: true,
        })?;
    }
    Ok(list)
}

/// The formulas of an operator that show it in the states that are shown, in the order of the states.
///
/// # Errors
///
/// Want of memory.
pub fn evidence_in<F>(
    alloc: Global,
    operator: &Operator<F>,
    showing: Showing,
) -> Result<Vec<Evidence>, NoMemory>
    ensures { IfOk result (λ list. list.items ≡ evidence_of operator.now showing) }
{
    match operator {
        Operator::AtEnd(_) => one_evidence(alloc, showing),
        Operator::Always(_) => one_evidence(alloc, showing),
        Operator::Sometime(_) => one_evidence(alloc, showing),
        Operator::AtMostOnce(_) => one_evidence(alloc, showing),
        Operator::SometimeAfter(_, _) => response_evidence(alloc, showing),
        Operator::SometimeBefore(_, _) => precedence_evidence(alloc, showing),
    }
}
