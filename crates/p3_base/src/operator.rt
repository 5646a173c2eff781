//! The operators of trajectory constraints, over whatever stands for a formula.

ghost use Rattle.std.specs.Prelude.{◌≡◌};
ghost use Rattle.p3_base.specs.Operators.{binary, is_at_end, operator_of, unary};

/// A modal operator over the visited states. `F` stands for its formulas.
#[derive(Debug, Drop)]
pub enum Operator<F> {
    /// It holds in the last state.
    AtEnd(F),
    /// It holds in every state.
    Always(F),
    /// It holds in some state.
    Sometime(F),
    /// Once it has held and ceased to, it does not hold again.
    AtMostOnce(F),
    /// Where the first holds, the second holds then or later.
    SometimeAfter(F, F),
    /// Where the first holds, the second held before.
    SometimeBefore(F, F),
}

/// Which operator over one formula it is.
#[derive(Clone, Copy, Debug, Drop)]
pub enum Unary {
    /// `at end`.
    AtEnd,
    /// `always`.
    Always,
    /// `sometime`.
    Sometime,
    /// `at-most-once`.
    AtMostOnce,
}

/// Which operator over two formulas it is.
#[derive(Clone, Copy, Debug, Drop)]
pub enum Binary {
    /// `sometime-after`.
    SometimeAfter,
    /// `sometime-before`.
    SometimeBefore,
}

/// What an operator is made of.
#[derive(Debug, Drop)]
pub enum Operands<'a, F> {
    /// One formula.
    One(Unary, &'a F),
    /// Two formulas.
    Two(Binary, &'a F, &'a F),
}

impl<F> Operator<F> {
    /// Lends what it is made of.
    pub fn operands(&self) -> Operands<'_, F>
        ensures { self.now ≡ operator_of result }
    {
        match self {
            Operator::AtEnd(formula) => Operands::One(Unary::AtEnd, formula),
            Operator::Always(formula) => Operands::One(Unary::Always, formula),
            Operator::Sometime(formula) => Operands::One(Unary::Sometime, formula),
            Operator::AtMostOnce(formula) => Operands::One(Unary::AtMostOnce, formula),
            Operator::SometimeAfter(first, second) => {
                Operands::Two(Binary::SometimeAfter, first, second)
            }
            Operator::SometimeBefore(first, second) => {
                Operands::Two(Binary::SometimeBefore, first, second)
            }
        }
    }

    /// Tells whether the last state alone counts.
    pub fn is_at_end(&self) -> bool
        ensures { result ≡ is_at_end self.now }
    {
        matches!(self, Operator::AtEnd(_))
    }
}

impl Unary {
    /// Makes the operator over a formula.
    pub fn over<F>(self, formula: F) -> Operator<F>
        ensures { result ≡ unary self formula }
    {
        match self {
            Unary::AtEnd => Operator::AtEnd(formula),
            Unary::Always => Operator::Always(formula),
            Unary::Sometime => Operator::Sometime(formula),
            Unary::AtMostOnce => Operator::AtMostOnce(formula),
        }
    }
}

impl Binary {
    /// Makes the operator over two formulas.
    pub fn over<F>(self, first: F, second: F) -> Operator<F>
        ensures { result ≡ binary self first second }
    {
        match self {
            Binary::SometimeAfter => Operator::SometimeAfter(first, second),
            Binary::SometimeBefore => Operator::SometimeBefore(first, second),
        }
    }
}
