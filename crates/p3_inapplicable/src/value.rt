//! Which value that the cost of a step reads is not given.

ghost use Rattle.std.specs.Prelude.{◌≡◌, IfOk, filter_map, slice_get};
ghost use Rattle.p3_inapplicable.specs.Values.{first_missing, missing_at};

use p3_base::{List, NoMemory};
use p3_expansion::spell;
use p3_numbers::{NumberedAmount, NumberedEffect};
use p3_steps::EffectCosts;
use std::alloc::Global;

/// Finds the function at objects that an amount reads, where it has no value.
fn missing_in(
    alloc: Global,
    costs: &EffectCosts<'_>,
    slots: &[u32],
    amount: &NumberedAmount,
) -> Result<Option<List<u32>>, NoMemory>
    ensures { IfOk result (λ value. value
        ≡ missing_at costs.now.places costs.now.values.now slots.now amount.now) }
{
    match amount {
        NumberedAmount::Number(_) => Ok(None),
        NumberedAmount::Value { function, args } => {
            let mut words = Vec::new(alloc);
            spell(&mut words, slots, *function, args.items())?;
            match costs.given(*function, &words.as_slice()[1..]) {
                Some(_) => Ok(None),
                None => Ok(Some(List::from(words))),
            }
        }
    }
}

/// Finds the first function at objects that an effect's increases read and that has no value.
#[cycle(missing)]
#[tactic(auto, using(crate::proofs::ValueLemmas::missing_laws))]
pub(crate) fn missing_value(
    alloc: Global,
    costs: &EffectCosts<'_>,
    slots: &[u32],
    effect: &NumberedEffect,
) -> Result<Option<List<u32>>, NoMemory>
    ensures { IfOk result (λ value. value
        ≡ first_missing costs.now.places costs.now.values.now slots.now effect.now) }
{
    match effect {
        NumberedEffect::All(parts) => {
            let value = missing_in_all(alloc, costs, slots, parts.items())?;
            Ok(value)
        }
        NumberedEffect::Cost(amount) => {
            let value = missing_in(alloc, costs, slots, amount)?;
            Ok(value)
        }
        NumberedEffect::Add { .. } => Ok(None),
        NumberedEffect::Del { .. } => Ok(None),
        NumberedEffect::Each(_, _) => Ok(None),
        NumberedEffect::If(_, _) => Ok(None),
    }
}

/// Finds the first that the effects read, in order.
#[cycle(missing)]
fn missing_in_all(
    alloc: Global,
    costs: &EffectCosts<'_>,
    slots: &[u32],
    parts: &[NumberedEffect],
) -> Result<Option<List<u32>>, NoMemory>
    ensures { IfOk result (λ value. value ≡ slice_get (filter_map
        (first_missing costs.now.places costs.now.values.now slots.now) parts.now) 0) }
{
    for part in parts {
        let value = missing_value(alloc, costs, slots, part)?;
        if value.is_some() {
            return Ok(value);
        }
    }
    Ok(None)
}
