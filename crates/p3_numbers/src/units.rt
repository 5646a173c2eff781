//! Costs in units.

ghost use Rattle.std.specs.Prelude.{◌≡◌, ◌≤◌};
ghost use Rattle.p3_numbers.specs.Units.{units_at as units_at_places};

use p3_task::Numeral;

/// The number in units of the last of so many decimal places.
pub fn units_at(number: &Numeral, places: u32) -> u128
    requires { places ≤ 6 }
    ensures { result ≡ units_at_places places number.now }
{
    u128::from(number.digits) * 10u128.pow(places.saturating_sub(number.places))
}
