//! What the preferences of a goal count for together.

ghost use Rattle.std.specs.Prelude.{◌≡◌};
ghost use Rattle.p3_limits.specs.Cuts.{cut_total};
ghost use Rattle.p3_limits.specs.Bounds as bounds;

use crate::choices::{choice_count, cut_product, cut_sum};
use crate::measure::Measure;
use p3_numbers::{NumberedGoal, Numbers};

/// The weight of a preference's name by its number; one without a name has none.
fn weight_at(by_name: &[u64], name: Option<u32>) -> u64
    ensures { result ≡ bounds.weight_at by_name.now name }
{
    match name {
        Some(number) => match by_name.get(number as usize) {
            Some(weight) => *weight,
            None => 0,
        },
        None => 0,
    }
}

/// What the preferences of a goal count for together, or `u64::MAX` where it is more. It takes no
/// memory.
#[cycle(shares)]
#[tactic(auto, using(crate::proofs::ShareLaws::share_forms))]
pub(crate) fn shares(
    measure: Measure,
    by_name: &[u64],
    numbers: &Numbers,
    goal: &NumberedGoal,
) -> u64
    ensures { result ≡ bounds.shares measure by_name.now numbers.now goal.now }
{
    match goal {
        NumberedGoal::Plain(_) => 0,
        NumberedGoal::Both(parts) => parts_shares(measure, by_name, numbers, parts.items()),
        NumberedGoal::Each(ranges, body) => {
            let choices = choice_count(numbers, ranges.items());
            cut_product(choices, shares(measure, by_name, numbers, body.get()))
        }
        NumberedGoal::Soft(preference) => measure.share(weight_at(by_name, preference.name)),
    }
}

/// What the preferences of all parts count for together.
#[cycle(shares)]
fn parts_shares(measure: Measure, by_name: &[u64], numbers: &Numbers, parts: &[NumberedGoal]) -> u64
    ensures { result ≡ cut_total (bounds.shares measure by_name.now numbers.now) 0 parts.now }
{
    let mut total = 0;
    for part in parts {
        total = cut_sum(total, shares(measure, by_name, numbers, part));
    }
    total
}
