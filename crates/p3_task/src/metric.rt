//! Metrics.

use crate::{Numeral, Ref};
use p3_base::{Boxed, Direction, List};

/// An expression over the counts of the preferences and the total cost. The numbers beside the
/// operators are the offsets of their words.
#[derive(Debug, Drop)]
pub enum Num {
    /// A number.
    Number(Numeral),
    /// The total cost.
    TotalCost(u32),
    /// The count of a preference.
    Violated(Ref),
    /// The negation.
    Neg(u32, Boxed<Num>),
    /// The difference.
    Sub(u32, Boxed<Num>, Boxed<Num>),
    /// The sum.
    Sum(u32, List<Num>),
    /// The product.
    Product(u32, List<Num>),
}

/// What is to be small or great.
#[derive(Debug, Drop)]
pub struct Metric {
    /// Whether small or great values are better.
    pub direction: Direction,
    /// The value.
    pub body: Num,
}
