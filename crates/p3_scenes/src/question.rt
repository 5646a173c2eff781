//! Questions about the states of a plan.

ghost use Rattle.std.specs.Prelude.{◌≡◌, IfOk};
ghost use Rattle.p3_reasons.specs.Evidences.{operand_of};
ghost use Rattle.p3_scenes.specs.Lent.{lent_operator};

use crate::OperatorScene;
use p3_base::Operator;
use p3_numbers::{NumberedCondition, NumberedGoal};
use p3_reasons::Operand;

/// What is asked.
#[derive(Clone, Copy, Debug)]
pub enum Asked<'t> {
    /// Whether a condition holds.
    Condition(&'t NumberedCondition),
    /// Whether the hard part of a precondition or a goal holds.
    HardPart(&'t NumberedGoal),
}

/// What is asked about a state of a plan.
#[derive(Clone, Copy, Debug)]
pub struct Question<'t> {
    /// The state, counted from 0: the one behind so many steps.
    pub state: u32,
    /// What is asked.
    pub asked: Asked<'t>,
    /// The objects of the variables in scope.
    pub slots: &'t [u32],
}

impl<'t> OperatorScene<'t> {
    /// The condition of the operator at that place; of one that has no second its only one.
    pub fn condition(&self, operand: Operand) -> &'t NumberedCondition
        ensures { result.now ≡ operand_of (lent_operator self.now.operator) operand }
    {
        match (&self.operator, operand) {
            (Operator::SometimeAfter(_, second), Operand::Second) => second,
            (Operator::SometimeBefore(_, second), Operand::Second) => second,
            (Operator::SometimeAfter(first, _), Operand::First) => first,
            (Operator::SometimeBefore(first, _), Operand::First) => first,
            (Operator::AtEnd(only), _) => only,
            (Operator::Always(only), _) => only,
            (Operator::Sometime(only), _) => only,
            (Operator::AtMostOnce(only), _) => only,
        }
    }
}
