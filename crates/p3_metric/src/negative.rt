//! The first mention with a weight below 0.

ghost use Rattle.std.specs.Prelude.{◌≡◌, pos, int_lt, if◌then◌else◌};
ghost use Rattle.p3_task.specs.Metrics.{signed};
ghost use Rattle.p3_task.specs.declared.metric.Num.TheVariants as num;
ghost use Rattle.p3_metric.specs.Signs.{negative_spot, negative_spot_in};

use crate::entries::number_of;
use crate::linear::Linear;
use crate::spot::Spot;
use p3_base::Direction;
use p3_task::{Num, Ref};

/// Whether a number is below 0 in what is to be small.
#[tactic(auto, using(crate::proofs::SignLaws::is_above))]
fn is_negative(direction: Direction, number: i128) -> bool
    ensures { result ≡ int_lt (signed direction number) (pos 0) }
{
    match direction {
        Direction::Minimize => number < 0,
        Direction::Maximize => 0 < number,
    }
}

/// The word, where its weight is negative.
fn spot_where(negative: bool, at: u32, len: usize) -> Option<Spot>
    ensures { result ≡ (if negative then Some (record { at = at; len = len }) else None) }
{
    if negative {
        Some(Spot { at, len })
    } else {
        None
    }
}

/// The word of a count, where its weight is negative.
fn count_spot(form: &Linear, direction: Direction, name: &Ref) -> Option<Spot>
    ensures { result ≡ negative_spot form.now direction (num.Violated name.now) }
{
    let negative = is_negative(direction, number_of(&form.counts, name.name.bytes()));
    spot_where(negative, name.at, name.name.bytes().len())
}

/// The word of the total cost, where its weight is negative.
fn cost_spot(form: &Linear, direction: Direction, at: u32) -> Option<Spot>
    ensures { result ≡ negative_spot form.now direction (num.TotalCost at) }
{
    spot_where(is_negative(direction, form.cost), at, "total-cost".len())
}

/// The word of the first mention with a negative weight.
#[cycle(negative)]
#[tactic(auto, using(crate::proofs::SignLaws::sign_laws))]
pub(crate) fn first_negative(form: &Linear, direction: Direction, tree: &Num) -> Option<Spot>
    ensures { result ≡ negative_spot form.now direction tree.now }
{
    match tree {
        Num::Number(_) => None,
        Num::TotalCost(at) => cost_spot(form, direction, *at),
        Num::Violated(name) => count_spot(form, direction, name),
        Num::Neg(_, part) => first_negative(form, direction, part.get()),
        Num::Sub(_, first, second) => {
            let minuend = first_negative(form, direction, first.get());
            minuend.or(first_negative(form, direction, second.get()))
        }
        Num::Sum(_, parts) => first_negative_in(form, direction, parts.items()),
        Num::Product(_, parts) => first_negative_in(form, direction, parts.items()),
    }
}

/// The word of the first mention with a negative weight in the parts.
#[cycle(negative)]
fn first_negative_in(form: &Linear, direction: Direction, parts: &[Num]) -> Option<Spot>
    ensures { result ≡ negative_spot_in form.now direction parts.now }
{
    let mut found = None;
    for part in parts {
        found = found.or(first_negative(form, direction, part));
    }
    found
}
