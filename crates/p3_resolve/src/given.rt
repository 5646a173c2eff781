//! Values of the initial state that are given twice.

ghost use Rattle.std.specs.Prelude.{◌≡◌, [], ◌∷◌, ◌||◌, not, map, fold, OnOk, IfOk};
ghost use Rattle.std.specs.List.{list_any};
ghost use Rattle.p3_task.specs.Names.{same_names};
ghost use Rattle.p3_task.specs.States.{meaning, meanings};
ghost use Rattle.p3_task.specs.Offences.{repeated_values};
ghost use Rattle.p3_resolve.specs.Given.{AddsKey, AddsValue, value_in};
ghost use Rattle.p3_resolve.specs.Spots.{step};

use crate::spot::{Spot, unless};
use indexmap::IndexSet;
use p3_base::NoMemory;
use p3_numbers::{Key, value_key};
use p3_task::{Init, Ref, Term};
use std::alloc::Global;
use std::marker::Model;

/// What has a value: a function's name and its objects.
#[derive(Drop)]
struct Given<'t> {
    keys: IndexSet<Vec<&'t [u8]>, Key>,
}

impl<'t> Model for Given<'t> {
    ghost use Rattle.std.specs.Prelude.{List, ℕ, map};

    ghost Value = { List (List (List ℕ)) };

    ghost view = { λ given. map (λ key. map (λ word. word.now) key.items) given.keys.keys };
}

impl<'t> Given<'t> {
    /// Nothing has a value. The key is made of all that may be added.
    fn new(alloc: Global, key: Key) -> Given<'t>
        ensures { result ≡ [] }
    {
        Given {
            keys: IndexSet::with_hasher(alloc, key),
        }
    }

    /// One more; whether it is new.
    fn add(&mut self, key: Vec<&'t [u8]>) -> Result<bool, NoMemory>
        ensures is_new { IfOk result
            (λ is_new. is_new
            ≡ not (list_any (same_names (map (λ word. word.now) key.entry.items)) self.old)) }
        ensures more { OnOk result
            (AddsKey self.old (map (λ word. word.now) key.entry.items) self.new) }
    {
        let (_, is_new) = self.keys.insert_full(key)?;
        Ok(is_new)
    }
}

/// What a term of the initial state means.
fn meaning_of<'t>(term: &'t Term) -> &'t [u8]
    ensures { result.now ≡ meaning [] term.now }
{
    match term {
        Term::Var(variable) => variable.name.bytes(),
        Term::Const(object) => object.name.bytes(),
    }
}

/// A function's name and its objects.
fn key_of<'t>(alloc: Global, function: &'t Ref, args: &'t [Term]) -> Result<Vec<&'t [u8]>, NoMemory>
    ensures { IfOk result
        (λ key. map (λ word. word.now) key.items ≡ function.now.name ∷ meanings [] args.now) }
{
    let mut key = Vec::new(alloc);
    key.push(function.name.bytes())?;
    for term in args {
        key.push(meaning_of(term))?;
    }
    Ok(key)
}

/// An entry's function, where its value was given; from then on the entry is among what has one.
fn entry_noted<'t>(
    alloc: Global,
    found: Option<Spot>,
    given: &mut Given<'t>,
    entry: &'t Init,
) -> Result<Option<Spot>, NoMemory>
    ensures least { IfOk result (λ least. least ≡ fold step found (value_in given.old entry.now)) }
    ensures given { OnOk result (AddsValue given.old entry.now given.new) }
{
    match entry {
        Init::True { .. } => Ok(found),
        Init::False { .. } => Ok(found),
        Init::Value { function, args, .. } => {
            let key = key_of(alloc, function, args.items())?;
            let is_new = given.add(key)?;
            Ok(unless(found, is_new, function))
        }
    }
}

/// The first value that is given twice, the second time.
pub(crate) fn values_repeated(
    alloc: Global,
    found: Option<Spot>,
    entries: &[Init],
) -> Result<Option<Spot>, NoMemory>
    ensures { IfOk result (λ least. least ≡ fold step found (repeated_values [] entries.now)) }
{
    let mut least = found;
    let mut given = Given::new(alloc, value_key(entries));
    for entry in entries {
        least = entry_noted(alloc, least, &mut given, entry)?;
    }
    Ok(least)
}
