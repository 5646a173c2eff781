//! Amounts and values in units, and what effects cost.

ghost use Rattle.std.specs.Prelude.{◌≡◌, ◌+◌, ◌≤◌, ◌^◌, flat_map, map, IfOk, OnOk};
ghost use Rattle.std.specs.Hash.DefaultHasher as sip;
ghost use Rattle.std.specs.Result.{MatchResult};
ghost use Rattle.p3_task.specs.Costs.{total};
ghost use Rattle.p3_numbers.specs.Slots.{value_of as meaning_of, values_of};
ghost use Rattle.p3_numbers.specs.Keys.{start_after, told_numbers};
ghost use Rattle.p3_steps.specs.Costs.{
  AddsValue,
  HasValues,
  amount_at,
  cost_of,
  given_at,
  numbers_in,
};

use p3_base::{NoMemory, TooLarge};
use p3_numbers::{
    Digest, Key, NumberedAmount, NumberedArgument, NumberedEffect, NumberedValue, units_at,
};
use std::alloc::Global;
use std::collections::HashMap;

/// From each function and its objects to the first value that they are given, in units.
type Table<'t> = HashMap<(u32, &'t [u32]), u128, Key>;

/// What effects cost: the values that the initial state gives to static functions, looked up by
/// hashing. Costs are in units of the last of the task's decimal places.
#[derive(Drop)]
pub struct EffectCosts<'t> {
    values: &'t [NumberedValue],
    places: u32,
    table: Table<'t>,
    pub ghost few: { places ≤ 6 },
    ghost told: { HasValues places values.now table },
}

/// A value goes into the table where none is there for its function and objects.
#[tactic(auto, unfolding(crate::specs::Costs::entry_at))]
fn note_value<'t>(
    table: &mut Table<'t>,
    places: u32,
    value: &'t NumberedValue,
) -> Result<(), NoMemory>
    requires { places ≤ 6 }
    ensures { OnOk result (AddsValue places table.old value.now table.new) }
{
    let key = (value.function, value.objects.items());
    match table.get(&key) {
        Some(_) => Ok(()),
        None => {
            table.insert(key, units_at(&value.number, places))?;
            Ok(())
        }
    }
}

/// A function that is given a value and its objects are told.
fn tell_value(digest: &mut Digest, value: &NumberedValue)
    ensures { digest.new.told ≡ told_numbers digest.old.told (numbers_in value.now) }
{
    digest.tell_number(value.function);
    digest.tell_numbers(value.objects.items());
}

/// The key of the functions and their objects that are given values.
fn value_key(values: &[NumberedValue]) -> Key
    ensures { result.start ≡ start_after
        (told_numbers sip.initial (flat_map numbers_in values.now)) }
{
    let mut digest = Digest::new();
    for value in values {
        tell_value(&mut digest, value);
    }
    digest.key()
}

/// The table of the values.
#[tactic(auto, unfolding(crate::specs::Costs::entry_at))]
fn table_of<'t>(
    alloc: Global,
    values: &'t [NumberedValue],
    places: u32,
) -> Result<Table<'t>, NoMemory>
    requires { places ≤ 6 }
    ensures { IfOk result (λ table. HasValues places values.now table) }
{
    let mut table = HashMap::with_hasher(alloc, value_key(values));
    for value in values {
        note_value(&mut table, places, value)?;
    }
    Ok(table)
}

/// The sum.
///
/// # Errors
///
/// `TooLarge` exactly from 2 ^ 128 on.
fn sum(first: u128, second: u128) -> Result<u128, TooLarge>
    ensures { MatchResult result (λ sum. sum ≡ first + second) (λ _. 2 ^ 128 ≤ first + second) }
{
    match first.checked_add(second) {
        Some(sum) => Ok(sum),
        None => Err(TooLarge),
    }
}

impl<'t> EffectCosts<'t> {
    /// What effects cost by these values, in units of the last of so many decimal places.
    pub fn of(
        alloc: Global,
        values: &'t [NumberedValue],
        places: u32,
    ) -> Result<EffectCosts<'t>, NoMemory>
        requires { places ≤ 6 }
        ensures values { IfOk result (λ costs. costs.values.now ≡ values.now) }
        ensures places { IfOk result (λ costs. costs.places ≡ places) }
    {
        let table = table_of(alloc, values, places)?;
        Ok(EffectCosts {
            values,
            places,
            table,
        })
    }

    /// The first value that the function is given at the objects.
    pub fn given(&self, function: u32, objects: &[u32]) -> Option<u128>
        ensures { result ≡ given_at self.now.places self.now.values.now function objects.now }
    {
        self.table.get(&(function, objects)).copied()
    }

    /// The value of an amount at the objects in the slots; they are spelled into the words.
    #[tactic(auto, using(crate::proofs::CostLemmas::cost_laws))]
    fn amount(
        &self,
        words: &mut Vec<u32>,
        slots: &[u32],
        amount: &NumberedAmount,
    ) -> Result<Option<u128>, NoMemory>
        ensures { IfOk result (λ value. value
            ≡ amount_at self.now.places self.now.values.now slots.now amount.now) }
    {
        match amount {
            NumberedAmount::Number(numeral) => Ok(Some(units_at(numeral, self.places))),
            NumberedAmount::Value { function, args } => {
                spell(words, slots, args.items())?;
                Ok(self.given(*function, words.as_slice()))
            }
        }
    }

    /// What the effect costs at the objects in the slots, where each value that it reads is given.
    #[cycle(costs)]
    #[tactic(auto, using(crate::proofs::CostLemmas::cost_laws))]
    pub fn cost(
        &self,
        words: &mut Vec<u32>,
        slots: &[u32],
        effect: &NumberedEffect,
    ) -> Result<Option<u128>, NoMemory>
        ensures { IfOk result (λ cost. cost
            ≡ cost_of self.now.places self.now.values.now slots.now effect.now) }
    {
        match effect {
            NumberedEffect::All(parts) => {
                let cost = self.cost_of_all(words, slots, parts.items())?;
                Ok(cost)
            }
            NumberedEffect::Cost(amount) => {
                let cost = self.amount(words, slots, amount)?;
                Ok(cost)
            }
            NumberedEffect::Add { .. } => Ok(Some(0)),
            NumberedEffect::Del { .. } => Ok(Some(0)),
            NumberedEffect::Each(_, _) => Ok(Some(0)),
            NumberedEffect::If(_, _) => Ok(Some(0)),
        }
    }

    /// What the effects cost together.
    #[cycle(costs)]
    fn cost_of_all(
        &self,
        words: &mut Vec<u32>,
        slots: &[u32],
        parts: &[NumberedEffect],
    ) -> Result<Option<u128>, NoMemory>
        ensures { IfOk result (λ cost. cost
            ≡ total (map (cost_of self.now.places self.now.values.now slots.now) parts.now)) }
    {
        let mut whole = 0;
        for part in parts {
            match self.cost(words, slots, part)? {
                None => return Ok(None),
                Some(cost) => whole = sum(whole, cost)?,
            }
        }
        Ok(Some(whole))
    }
}

/// Puts what the arguments mean in the place of the words.
fn spell(words: &mut Vec<u32>, slots: &[u32], args: &[NumberedArgument]) -> Result<(), NoMemory>
    ensures { OnOk result (words.new.items ≡ values_of slots.now args.now) }
{
    words.clear();
    for arg in args {
        words.push(value_of(slots, *arg))?;
    }
    Ok(())
}

/// The object that an argument means.
fn value_of(slots: &[u32], argument: NumberedArgument) -> u32
    ensures { result ≡ meaning_of slots.now argument }
{
    match argument {
        NumberedArgument::Slot(place) => match slots.get(place as usize) {
            Some(object) => *object,
            None => 0,
        },
        NumberedArgument::Object(object) => object,
    }
}
