//! Operators of trajectory constraints by their words.

ghost use Rattle.std.specs.Prelude.{◌≡◌};
ghost use Rattle.p3_accounts.specs.Operators.{binary_word, kind_of, operator_word, unary_word};

use p3_base::{Binary, Operands, Operator, Unary};

/// Which operator of trajectory constraints it is.
#[derive(Clone, Copy, Debug, Drop)]
pub enum OperatorKind {
    /// One over one formula.
    One(Unary),
    /// One over two formulas.
    Two(Binary),
}

impl OperatorKind {
    /// Tells which operator it is.
    pub fn of<F>(operator: &Operator<F>) -> OperatorKind
        ensures { result ≡ kind_of operator.now }
    {
        match operator.operands() {
            Operands::One(kind, _) => OperatorKind::One(kind),
            Operands::Two(kind, _, _) => OperatorKind::Two(kind),
        }
    }

    /// Gives its word.
    pub(crate) fn word(self) -> &'static str
        ensures { result.now ≡ operator_word self }
    {
        match self {
            OperatorKind::One(kind) => word_of_one(kind),
            OperatorKind::Two(kind) => word_of_two(kind),
        }
    }
}

/// Gives the word of an operator over one formula.
fn word_of_one(kind: Unary) -> &'static str
    ensures { result.now ≡ unary_word kind }
{
    match kind {
        Unary::AtEnd => "at end",
        Unary::Always => "always",
        Unary::Sometime => "sometime",
        Unary::AtMostOnce => "at-most-once",
    }
}

/// Gives the word of an operator over two formulas.
fn word_of_two(kind: Binary) -> &'static str
    ensures { result.now ≡ binary_word kind }
{
    match kind {
        Binary::SometimeAfter => "sometime-after",
        Binary::SometimeBefore => "sometime-before",
    }
}
