//! Operators and preferences at objects, with the words and the places of their texts.

ghost use Rattle.std.specs.Prelude.{◌≡◌};
ghost use Rattle.p3_scenes.specs.Lent.{lent_operator};

use crate::Bindings;
use p3_base::{List, Name, Operator, Role};
use p3_numbers::{NumberedCondition, NumberedModal};

/// An operator of a constraint at objects.
#[derive(Drop)]
pub struct OperatorScene<'t> {
    /// The half of the task in which it stands.
    pub role: Role,
    /// The offset of the first word of its formulas, where they have a word.
    pub word: Option<u32>,
    /// The operator over its conditions.
    pub operator: Operator<&'t NumberedCondition>,
    /// The variables in scope and their objects.
    pub bindings: Bindings<'t>,
}

/// A preference over the visited states at objects.
#[derive(Drop)]
pub struct InstanceScene<'t> {
    /// The half of the task in which it stands.
    pub role: Role,
    /// The offset of its word `preference`.
    pub at: u32,
    /// Its name, where it has one.
    pub name: Option<&'t Name>,
    /// The variables outside it and their objects.
    pub bindings: Bindings<'t>,
    /// Its operators.
    pub operators: List<OperatorScene<'t>>,
}

/// A preference over one state at objects.
#[derive(Drop)]
pub struct PreferenceScene<'t> {
    /// The offset of its word `preference`.
    pub at: u32,
    /// Its name, where it has one.
    pub name: Option<&'t Name>,
    /// The offset of the first word of its formula, where it has a word.
    pub word: Option<u32>,
    /// What is preferred.
    pub condition: &'t NumberedCondition,
    /// The variables outside it and their objects.
    pub bindings: Bindings<'t>,
}

/// The operator over its conditions.
pub(crate) fn lent<'t>(modal: &'t NumberedModal) -> Operator<&'t NumberedCondition>
    ensures { lent_operator result ≡ modal.now }
{
    match modal {
        Operator::AtEnd(condition) => Operator::AtEnd(condition),
        Operator::Always(condition) => Operator::Always(condition),
        Operator::Sometime(condition) => Operator::Sometime(condition),
        Operator::AtMostOnce(condition) => Operator::AtMostOnce(condition),
        Operator::SometimeAfter(first, second) => Operator::SometimeAfter(first, second),
        Operator::SometimeBefore(first, second) => Operator::SometimeBefore(first, second),
    }
}
