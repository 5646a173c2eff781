//! The weights of steps and of their preferences.

ghost use Rattle.std.specs.Prelude.{◌≡◌, ◌<◌, ◌*◌, ◌^◌, length, unwrap_or};
ghost use Rattle.p3_formula.specs.Weighted.{HasNameBelow, weight_of};

use p3_base::List;
use p3_formula::GroundPref;

/// The cost of a step, weighted.
pub(crate) fn weighted_cost(weight: u64, cost: Option<u128>) -> u64
    requires { weight * unwrap_or cost 0 < 2 ^ 62 }
    ensures { result ≡ weight * unwrap_or cost 0 }
{
    (u128::from(weight) * cost.unwrap_or(0)) as u64
}

/// The weight of a preference: without a name it has none.
pub(crate) fn weight_of(by_name: &List<u64>, pref: &GroundPref) -> u64
    requires { HasNameBelow (length by_name.now) pref.now.name }
    ensures { result ≡ weight_of by_name.now pref.now }
{
    match pref.name {
        Some(name) => by_name.items()[name as usize],
        None => 0,
    }
}
