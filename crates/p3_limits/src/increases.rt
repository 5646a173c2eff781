//! What an effect costs at most.

ghost use Rattle.std.specs.Prelude.{◌≡◌};
ghost use Rattle.p3_limits.specs.Cuts.{cut, cut_total};
ghost use Rattle.p3_limits.specs.Bounds as bounds;

use crate::choices::{cut_sum, cut_units};
use p3_numbers::{NumberedAmount, NumberedEffect, units_at};
use p3_types::Checked;

/// The greatest value of a function in units, or `u64::MAX` where it is more; 0 where no function
/// has the number.
fn greatest_at(task: &Checked, function: u32) -> u64
    ensures { result ≡ cut (bounds.greatest_at
        task.now.task task.now.numbered.numbers.functions function) }
{
    if (function as usize) < task.numbered().numbers.functions.len() {
        cut_units(task.greatest_value(function))
    } else {
        0
    }
}

/// What one increase adds at most, in units, or `u64::MAX` where it is more.
fn greatest_increase(task: &Checked, increase: &NumberedAmount) -> u64
    ensures { result ≡ cut (bounds.greatest_increase
        task.now.task task.now.numbered.numbers.functions increase.now) }
{
    match increase {
        NumberedAmount::Number(numeral) => cut_units(units_at(numeral, task.cost_places())),
        NumberedAmount::Value { function, .. } => greatest_at(task, *function),
    }
}

/// What the effect costs at most, in units, or `u64::MAX` where it is more. It takes no memory.
#[cycle(greatest_cost)]
#[tactic(auto, using(crate::proofs::IncreaseLaws::increase_forms))]
pub(crate) fn greatest_cost(task: &Checked, effect: &NumberedEffect) -> u64
    ensures { result ≡ bounds.greatest_cost
        task.now.task task.now.numbered.numbers.functions effect.now }
{
    match effect {
        NumberedEffect::Add { .. } => 0,
        NumberedEffect::Del { .. } => 0,
        NumberedEffect::All(parts) => greatest_costs(task, parts.items()),
        NumberedEffect::Each(_, _) => 0,
        NumberedEffect::If(_, _) => 0,
        NumberedEffect::Cost(increase) => greatest_increase(task, increase),
    }
}

/// What the effects cost together at most.
#[cycle(greatest_cost)]
fn greatest_costs(task: &Checked, effects: &[NumberedEffect]) -> u64
    ensures { result ≡ cut_total (bounds.greatest_cost
        task.now.task task.now.numbered.numbers.functions) 0 effects.now }
{
    let mut total = 0;
    for effect in effects {
        total = cut_sum(total, greatest_cost(task, effect));
    }
    total
}
