//! Weights of names, and widths of steps.

ghost use Rattle.std.specs.Prelude.{◌≡◌, length, nat_lt};
ghost use Rattle.p3_formula.specs.Weighted as weigh;
ghost use Rattle.p3_simulation.specs.Naming.{is_wide};

use p3_base::List;
use p3_formula::GroundStep;

/// The weight of a name. Where there is none, it has no weight.
pub(crate) fn named_weight(by_name: &List<u64>, name: Option<u32>) -> u64
    requires { weigh.HasNameBelow (length by_name.now) name }
    ensures { result ≡ weigh.named_weight by_name.now name }
{
    match name {
        Some(name) => by_name.items()[name as usize],
        None => 0,
    }
}

/// How many preferences of the step have a weight.
fn width(by_name: &List<u64>, step: &GroundStep) -> usize
    requires { weigh.AreNamedBelow (length by_name.now) step.now.prefs }
    ensures { result ≡ weigh.width_of by_name.now step.now }
{
    let mut count = 0;
    for pref in step.prefs.items() {
        if named_weight(by_name, pref.name) > 0 {
            count += 1;
        }
    }
    count
}

/// Whether the step has more than 8 preferences with a weight.
pub(crate) fn has_many_weights(by_name: &List<u64>, step: &GroundStep) -> bool
    requires { weigh.AreNamedBelow (length by_name.now) step.now.prefs }
    ensures { result ≡ nat_lt 8 (weigh.width_of by_name.now step.now) }
{
    width(by_name, step) > 8
}

/// Whether the step may be taken and has more than 8 preferences with a weight.
pub(crate) fn is_wide(by_name: &List<u64>, step: &GroundStep) -> bool
    requires { weigh.AreNamedBelow (length by_name.now) step.now.prefs }
    ensures { result ≡ is_wide by_name.now step.now }
{
    step.cost.is_some() && has_many_weights(by_name, step)
}
