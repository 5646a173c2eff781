//! Effects at objects as changes.

ghost use Rattle.std.specs.Prelude.{◌≡◌, true, false, flat_map, OnOk, IfOk, IsTrue};
ghost use Rattle.p3_formula.specs.Tidy.{is_tidy};
ghost use Rattle.p3_numbers.specs.Slots.{bound};
ghost use Rattle.p3_expansion.specs.Atoms.{atom_at};
ghost use Rattle.p3_expansion.specs.Changes.{AddsChange, ChangesUnder, MakesChanges, effect_atoms, guarded_literals};
ghost use Rattle.p3_expansion.specs.Expansions.{IsJoined};

use crate::choices::{choice_count, place_choice};
use crate::condition::condition_form;
use crate::form::{form_copied, is_value};
use crate::junction::both;
use crate::{Statics, Work};
use p3_base::{List, NoMemory};
use p3_formula::{Change, Effects, Form, fitted};
use p3_numbers::{NumberedArgument, NumberedEffect, Numbers};
use std::alloc::Global;

/// The conditions that stand above a part of an effect.
#[derive(Drop)]
pub(crate) struct Guard {
    /// The tidy form that all of them hold.
    pub(crate) form: Form,
    /// Whether there is none.
    pub(crate) is_free: bool,
}

/// Puts the change of an atom, where the condition holds, behind those made.
fn push_change(
    work: &mut Work,
    cond: Form,
    slots: &[u32],
    add: bool,
    predicate: u32,
    args: &[NumberedArgument],
    made: &mut Effects,
) -> Result<(), NoMemory>
    requires { IsTrue (is_tidy cond) }
    ensures { OnOk result (AddsChange work.old work.new cond add
        (atom_at slots.now predicate args.now) made.old made.new) }
{
    work.spell(slots, predicate, args)?;
    let atom = work.atom_number()?;
    made.push(Change { cond, atom, add })?;
    Ok(())
}

/// The guard with one condition more.
fn narrowed(alloc: Global, guard: &Guard, condition: Form) -> Result<Guard, NoMemory>
    requires guard { IsTrue (is_tidy guard.now.form) }
    requires condition { IsTrue (is_tidy condition) }
    ensures joined { IfOk result (λ narrow. IsJoined true guard.now.form condition narrow.form) }
    ensures free { IfOk result (λ narrow. narrow.is_free ≡ false) }
    ensures tidy { IfOk result (λ narrow. IsTrue (is_tidy narrow.form)) }
{
    let above = form_copied(alloc, &guard.form)?;
    let form = both(alloc, above, condition)?;
    Ok(Guard {
        form,
        is_free: false,
    })
}

/// Puts the changes of an effect at the objects in the slots behind those made, in order.
#[cycle(changes)]
fn push_changes(
    numbers: &Numbers,
    statics: &Statics,
    work: &mut Work,
    slots: &[u32],
    guard: &Guard,
    effect: &NumberedEffect,
    made: &mut Effects,
) -> Result<(), NoMemory>
    requires { IsTrue (is_tidy guard.now.form) }
    ensures { OnOk result (ChangesUnder numbers.now statics.now guard.now
        (effect_atoms numbers.now slots.now effect.now) work.old work.new
        (λ above. guarded_literals numbers.now above guard.now.is_free slots.now effect.now)
        made.old made.new) }
{
    match effect {
        NumberedEffect::Add { predicate, args } => {
            let copy = form_copied(work.alloc, &guard.form)?;
            push_change(work, copy, slots, true, *predicate, args.items(), made)?;
            Ok(())
        }
        NumberedEffect::Del { predicate, args } => {
            let copy = form_copied(work.alloc, &guard.form)?;
            push_change(work, copy, slots, false, *predicate, args.items(), made)?;
            Ok(())
        }
        NumberedEffect::All(parts) => {
            push_all(numbers, statics, work, slots, guard, parts.items(), made)?;
            Ok(())
        }
        NumberedEffect::Each(ranges, body) => {
            let (ranges, body) = (ranges.items(), body.get());
            push_each(numbers, statics, work, slots, guard, ranges, body, made)?;
            Ok(())
        }
        NumberedEffect::If(condition, body) => {
            let condition = condition_form(numbers, statics, work, slots, condition)?;
            let narrow = narrowed(work.alloc, guard, condition)?;
            if is_value(&narrow.form, false) {
                return Ok(());
            }
            push_under(numbers, statics, work, slots, narrow, body.get(), made)?;
            Ok(())
        }
        NumberedEffect::Cost(_) => Ok(()),
    }
}

/// Puts the changes of an effect behind those made. A literal takes the guard's form as it is.
#[cycle(changes)]
fn push_under(
    numbers: &Numbers,
    statics: &Statics,
    work: &mut Work,
    slots: &[u32],
    guard: Guard,
    effect: &NumberedEffect,
    made: &mut Effects,
) -> Result<(), NoMemory>
    requires { IsTrue (is_tidy guard.form) }
    ensures { OnOk result (ChangesUnder numbers.now statics.now guard
        (effect_atoms numbers.now slots.now effect.now) work.old work.new
        (λ above. guarded_literals numbers.now above guard.is_free slots.now effect.now)
        made.old made.new) }
{
    match effect {
        NumberedEffect::Add { predicate, args } => {
            let cond = guard.form;
            push_change(work, cond, slots, true, *predicate, args.items(), made)?;
            Ok(())
        }
        NumberedEffect::Del { predicate, args } => {
            let cond = guard.form;
            push_change(work, cond, slots, false, *predicate, args.items(), made)?;
            Ok(())
        }
        _ => {
            push_changes(numbers, statics, work, slots, &guard, effect, made)?;
            Ok(())
        }
    }
}

/// Puts the changes of the effects behind those made.
#[cycle(changes)]
fn push_all(
    numbers: &Numbers,
    statics: &Statics,
    work: &mut Work,
    slots: &[u32],
    guard: &Guard,
    parts: &[NumberedEffect],
    made: &mut Effects,
) -> Result<(), NoMemory>
    requires { IsTrue (is_tidy guard.now.form) }
    ensures { OnOk result (ChangesUnder numbers.now statics.now guard.now
        (flat_map (effect_atoms numbers.now slots.now) parts.now) work.old work.new
        (λ above. flat_map
        (guarded_literals numbers.now above guard.now.is_free slots.now) parts.now)
        made.old made.new) }
{
    for part in parts {
        push_changes(numbers, statics, work, slots, guard, part, made)?;
    }
    Ok(())
}

/// Puts the changes of the body at each choice of objects behind those made.
#[cycle(changes)]
fn push_each(
    numbers: &Numbers,
    statics: &Statics,
    work: &mut Work,
    slots: &[u32],
    guard: &Guard,
    ranges: &[u32],
    body: &NumberedEffect,
    made: &mut Effects,
) -> Result<(), NoMemory>
    requires { IsTrue (is_tidy guard.now.form) }
    ensures { OnOk result (ChangesUnder numbers.now statics.now guard.now
        (flat_map (λ inner. effect_atoms numbers.now inner body.now)
        (bound numbers.now slots.now ranges.now)) work.old work.new
        (λ above. flat_map
        (λ inner. guarded_literals numbers.now above guard.now.is_free inner body.now)
        (bound numbers.now slots.now ranges.now)) made.old made.new) }
{
    let count = choice_count(numbers, ranges)?;
    let mut inner = Vec::from_slice(work.alloc, slots)?;
    for choice in 0..count {
        place_choice(&mut inner, slots.len(), numbers, ranges, count, choice)?;
        push_changes(numbers, statics, work, inner.as_slice(), guard, body, made)?;
    }
    Ok(())
}

/// How many literals the effect has, where each body is taken once.
#[cycle(count)]
pub fn literal_count(effect: &NumberedEffect) -> usize {
    match effect {
        NumberedEffect::Add { .. } => 1,
        NumberedEffect::Del { .. } => 1,
        NumberedEffect::All(parts) => literal_sum(parts.items()),
        NumberedEffect::Each(_, body) => literal_count(body.get()),
        NumberedEffect::If(_, body) => literal_count(body.get()),
        NumberedEffect::Cost(_) => 0,
    }
}

/// How many literals the effects have together.
#[cycle(count)]
fn literal_sum(parts: &[NumberedEffect]) -> usize {
    let mut sum = 0usize;
    for part in parts {
        sum = sum.saturating_add(literal_count(part));
    }
    sum
}

/// The changes of an effect at the objects in the slots, in a list that may have room for more.
fn made_changes(
    numbers: &Numbers,
    statics: &Statics,
    work: &mut Work,
    slots: &[u32],
    effect: &NumberedEffect,
    room: usize,
) -> Result<Effects, NoMemory>
    ensures { IfOk result
        (MakesChanges numbers.now statics.now slots.now effect.now work.old work.new) }
{
    let guard = Guard {
        form: Form::True,
        is_free: true,
    };
    let mut made = List::from(Vec::with_capacity(work.alloc, room)?);
    push_changes(numbers, statics, work, slots, &guard, effect, &mut made)?;
    Ok(made)
}

/// The changes of an effect at the objects in the slots, in the order of its literals. Those of
/// literals that never take place may be left out. Room is made for so many at first.
pub fn changes(
    numbers: &Numbers,
    statics: &Statics,
    work: &mut Work,
    slots: &[u32],
    effect: &NumberedEffect,
    room: usize,
) -> Result<Effects, NoMemory>
    ensures { IfOk result
        (MakesChanges numbers.now statics.now slots.now effect.now work.old work.new) }
{
    let made = made_changes(numbers, statics, work, slots, effect, room)?;
    Ok(fitted(made))
}
