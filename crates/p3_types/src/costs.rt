//! The decimal places of a task's costs, and the greatest values of its functions.

ghost use Rattle.std.specs.Prelude.{◌≡◌, ◌<◌, ◌≤◌, max, length, slice_set, slice_index, IfOk};
ghost use Rattle.std.specs.List.{All};
ghost use Rattle.p3_task.specs.Costs.{cost_places as places_of_costs};
ghost use Rattle.p3_types.specs.Costs.{
  most_of,
  amount_places as places_of_amount,
  entry_places as places_of_entry,
  effect_places as places_of_effect,
  action_places as places_of_action,
  greatest_of_all,
};

use p3_base::NoMemory;
use p3_numbers::{NumberedValue, units_at};
use p3_task::{Action, Amount, Effect, Init, Task};
use std::alloc::Global;

/// The decimal places of an amount that is a number, 0 for others.
fn amount_places(amount: &Amount) -> u32
    ensures { result ≡ places_of_amount amount.now }
{
    match amount {
        Amount::Number(numeral) => numeral.places,
        Amount::Value { .. } => 0,
    }
}

/// The most decimal places of an increase in the effect. It takes no memory.
#[cycle(effect)]
#[tactic(auto, using(crate::proofs::CostLemmas::effect_forms))]
fn effect_places(effect: &Effect) -> u32
    ensures { result ≡ places_of_effect effect.now }
{
    match effect {
        Effect::Add { .. } => 0,
        Effect::Del { .. } => 0,
        Effect::All(parts) => effects_places(parts.items()),
        Effect::Each(_, _) => 0,
        Effect::If(_, _) => 0,
        Effect::Cost(_, amount) => amount_places(amount),
    }
}

/// The most decimal places of an increase in the effects.
#[cycle(effect)]
fn effects_places(effects: &[Effect]) -> u32
    ensures { result ≡ most_of places_of_effect effects.now }
{
    let mut most = 0;
    for effect in effects {
        most = most.max(effect_places(effect));
    }
    most
}

/// The most decimal places of an increase in the actions.
fn actions_places(actions: &[Action]) -> u32
    ensures { result ≡ most_of places_of_action actions.now }
{
    let mut most = 0;
    for action in actions {
        most = most.max(effect_places(&action.effect.body));
    }
    most
}

/// The decimal places of the value that an entry gives, 0 where it gives none.
fn entry_places(entry: &Init) -> u32
    ensures { result ≡ places_of_entry entry.now }
{
    match entry {
        Init::Value { number, .. } => number.places,
        Init::True { .. } => 0,
        Init::False { .. } => 0,
    }
}

/// The most decimal places of a value that the entries give.
fn entries_places(entries: &[Init]) -> u32
    ensures { result ≡ most_of places_of_entry entries.now }
{
    let mut most = 0;
    for entry in entries {
        most = most.max(entry_places(entry));
    }
    most
}

/// How many decimal places the task's costs have at most.
pub(crate) fn cost_places(task: &Task) -> u32
    ensures { result ≡ places_of_costs task.now }
{
    let amounts = actions_places(task.domain.actions.items());
    amounts.max(entries_places(task.problem.init.items()))
}

/// Raises the number at the place to that one where it is smaller.
fn raise(numbers: &mut [u128], place: usize, number: u128)
    requires { place < length numbers.old }
    ensures { numbers.new
        ≡ slice_set numbers.old place (max (slice_index numbers.old place) number) }
{
    numbers[place] = numbers[place].max(number);
}

/// The greatest value of each of so many functions, in units of the last of so many decimal
/// places, 0 where it has none.
pub(crate) fn greatest_values(
    alloc: Global,
    values: &[NumberedValue],
    functions: usize,
    places: u32,
) -> Result<Vec<u128>, NoMemory>
    requires places { places ≤ 6 }
    requires known { All (λ value. value.function < functions) values.now }
    ensures { IfOk result
        (λ greatest. greatest.items ≡ greatest_of_all places values.now functions) }
{
    let mut greatest = vec![in alloc; 0u128; functions]?;
    for value in values {
        let units = units_at(&value.number, places);
        raise(&mut greatest, value.function as usize, units);
    }
    Ok(greatest)
}
