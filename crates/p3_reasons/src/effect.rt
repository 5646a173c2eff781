//! What an effect makes of the atoms that are true.

ghost use Rattle.std.specs.Prelude.{◌≡◌, ◌++◌, ◌∷◌, [], flat_map, OnOk, IfOk};
ghost use Rattle.p3_numbers.specs.Slots.{bound};
ghost use Rattle.p3_expansion.specs.Atoms.{atom_at};
ghost use Rattle.p3_reasons.specs.Effects.{taken as literals_of};

use crate::condition::condition_finding;
use crate::{Facts, Literal};
use p3_base::{List, NoMemory};
use p3_expansion::{choice_count, place_choice, spell};
use p3_numbers::{NumberedArgument, NumberedEffect, Numbers};
use std::alloc::Global;

/// Puts a predicate at what its arguments mean behind the others, as true or as false.
fn push_literal(
    alloc: Global,
    slots: &[u32],
    predicate: u32,
    args: &[NumberedArgument],
    holds: bool,
    taken: &mut List<Literal>,
) -> Result<(), NoMemory>
    ensures { OnOk result (taken.new ≡ taken.old
        ++ record { atom = atom_at slots.now predicate args.now; holds = holds } ∷ []) }
{
    let mut words = Vec::new(alloc);
    spell(&mut words, slots, predicate, args)?;
    let atom = List::from(words);
    taken.push(Literal { atom, holds })?;
    Ok(())
}

/// Puts the literals of an effect that take place behind the others, in order.
#[cycle(taking)]
fn push_taken<F: Facts>(
    alloc: Global,
    numbers: &Numbers,
    facts: &F,
    slots: &[u32],
    effect: &NumberedEffect,
    taken: &mut List<Literal>,
) -> Result<(), NoMemory>
    ensures { OnOk result (taken.new ≡ taken.old
        ++ literals_of numbers.now (F.has_atom facts.now) slots.now effect.now) }
{
    match effect {
        NumberedEffect::Add { predicate, args } => {
            push_literal(alloc, slots, *predicate, args.items(), true, taken)
        }
        NumberedEffect::Del { predicate, args } => {
            push_literal(alloc, slots, *predicate, args.items(), false, taken)
        }
        NumberedEffect::All(parts) => {
            push_all_taken(alloc, numbers, facts, slots, parts.items(), taken)
        }
        NumberedEffect::Each(ranges, body) => {
            let (ranges, body) = (ranges.items(), body.get());
            push_each_taken(alloc, numbers, facts, slots, ranges, body, taken)
        }
        NumberedEffect::If(condition, body) => {
            let finding = condition_finding(alloc, numbers, facts, slots, condition)?;
            if finding.holds {
                return push_taken(alloc, numbers, facts, slots, body.get(), taken);
            }
            Ok(())
        }
        NumberedEffect::Cost(_) => Ok(()),
    }
}

/// Puts the literals of the effects that take place behind the others.
#[cycle(taking)]
fn push_all_taken<F: Facts>(
    alloc: Global,
    numbers: &Numbers,
    facts: &F,
    slots: &[u32],
    parts: &[NumberedEffect],
    taken: &mut List<Literal>,
) -> Result<(), NoMemory>
    ensures { OnOk result (taken.new ≡ taken.old
        ++ flat_map (literals_of numbers.now (F.has_atom facts.now) slots.now) parts.now) }
{
    for part in parts {
        push_taken(alloc, numbers, facts, slots, part, taken)?;
    }
    Ok(())
}

/// Puts the literals of the body that take place, at each choice of one object of each range, behind
/// the others.
#[cycle(taking)]
fn push_each_taken<F: Facts>(
    alloc: Global,
    numbers: &Numbers,
    facts: &F,
    slots: &[u32],
    ranges: &[u32],
    body: &NumberedEffect,
    taken: &mut List<Literal>,
) -> Result<(), NoMemory>
    ensures { OnOk result (taken.new ≡ taken.old
        ++ flat_map (λ inner. literals_of numbers.now (F.has_atom facts.now) inner body.now)
        (bound numbers.now slots.now ranges.now)) }
{
    let count = choice_count(numbers, ranges)?;
    let mut inner = Vec::from_slice(alloc, slots)?;
    for choice in 0..count {
        place_choice(&mut inner, slots.len(), numbers, ranges, count, choice)?;
        push_taken(alloc, numbers, facts, inner.as_slice(), body, taken)?;
    }
    Ok(())
}

/// The literals of an effect that take place at the objects in the slots, in order: what is added is
/// true, and what is deleted is false. All conditions are looked at before anything changes.
///
/// # Errors
///
/// Want of memory.
pub fn effect_literals<F: Facts>(
    alloc: Global,
    numbers: &Numbers,
    facts: &F,
    slots: &[u32],
    effect: &NumberedEffect,
) -> Result<List<Literal>, NoMemory>
    ensures { IfOk result (λ list. list
        ≡ literals_of numbers.now (F.has_atom facts.now) slots.now effect.now) }
{
    let mut list = List::new(alloc);
    push_taken(alloc, numbers, facts, slots, effect, &mut list)?;
    Ok(list)
}
