//! The preferences and the cost of a step.

ghost use Rattle.std.specs.Prelude.{◌≡◌, ◌+◌, ◌*◌, ◌^◌, ◌<◌, ◌≤◌, length, fold, Some, IsTrue};
ghost use Rattle.std.specs.List.{All, list_all};
ghost use Rattle.p3_formula.specs.Forms.{is_below, IsBelow};
ghost use Rattle.p3_formula.specs.Weighted as weigh;
ghost use Rattle.p3_run.specs.Steps as sums;

use crate::tallies::Tally;
use p3_formula::{Bits, GroundPref, GroundStep, Weights, eval};

/// Counts the preference where it is false.
fn count_if(tally: &mut Tally, by_name: &[u64], pref: &GroundPref, state: &Bits)
    requires below { IsBelow (length state.now) pref.now.body }
    requires named { weigh.HasNameBelow (length by_name.now) pref.now.name }
    requires room { sums.HasRoom by_name.now 1 tally.old }
    ensures { tally.new ≡ sums.added_if state.now by_name.now tally.old pref.now }
{
    if !eval(&pref.body, state) {
        tally.add(pref.name, by_name);
    }
}

/// Counts the preferences that are false.
fn count_all(tally: &mut Tally, by_name: &[u64], prefs: &[GroundPref], state: &Bits)
    requires below { All (sums.HasBodyBelow (length state.now)) prefs.now }
    requires named { weigh.AreNamedBelow (length by_name.now) prefs.now }
    requires room { sums.HasRoom by_name.now (length prefs.now) tally.old }
    ensures are { tally.new ≡ fold (sums.added_if state.now by_name.now) tally.old prefs.now }
    ensures room { sums.HasRoom by_name.now 0 tally.new }
{
    for pref in prefs {
        count_if(tally, by_name, pref, state);
    }
}

/// Counts the preferences of the step that are false, and weighs its cost.
pub(crate) fn count_step(
    tally: &mut Tally,
    weights: &Weights,
    step: &GroundStep,
    cost: u128,
    state: &Bits,
)
    requires cost { step.now.cost ≡ Some cost }
    requires light { weights.now.total_cost * cost < 2 ^ 62 }
    requires below { All (sums.HasBodyBelow (length state.now)) step.now.prefs }
    requires named { weigh.AreNamedBelow (length weights.now.by_name) step.now.prefs }
    requires room { sums.HasRoom weights.now.by_name (length step.now.prefs) tally.old }
    ensures { tally.new ≡ sums.counted_step state.now weights.now tally.old step.now }
{
    count_all(tally, weights.by_name.items(), step.prefs.items(), state);
    tally.weigh(u128::from(weights.total_cost) * cost);
}
