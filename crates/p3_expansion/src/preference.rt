//! The preferences of goals at objects.

ghost use Rattle.std.specs.Prelude.{flat_map, OnOk};
ghost use Rattle.p3_numbers.specs.Goals.{preferences};
ghost use Rattle.p3_numbers.specs.Slots.{bound};
ghost use Rattle.p3_expansion.specs.Preferences.{PreferencesStand, preference_atoms};
ghost use Rattle.p3_expansion.specs.Walks.{Pushes};

use crate::choices::{choice_count, place_choice};
use crate::condition::condition_form;
use crate::{Statics, Work};
use p3_base::{List, NoMemory};
use p3_formula::GroundPref;
use p3_numbers::{NumberedGoal, NumberedPreference, Numbers};

/// How many preferences the goal has, where each body is taken once.
#[cycle(count)]
pub fn preference_count(goal: &NumberedGoal) -> usize {
    match goal {
        NumberedGoal::Plain(_) => 0,
        NumberedGoal::Both(parts) => preference_sum(parts.items()),
        NumberedGoal::Each(_, body) => preference_count(body.get()),
        NumberedGoal::Soft(_) => 1,
    }
}

/// How many preferences the goals have together.
#[cycle(count)]
fn preference_sum(parts: &[NumberedGoal]) -> usize {
    let mut sum = 0usize;
    for part in parts {
        sum = sum.saturating_add(preference_count(part));
    }
    sum
}

/// Puts the preference at the objects in the slots behind those made.
fn push_preference(
    numbers: &Numbers,
    statics: &Statics,
    work: &mut Work,
    slots: &[u32],
    preference: &NumberedPreference,
    made: &mut List<GroundPref>,
) -> Result<(), NoMemory>
    ensures { OnOk result (Pushes (PreferencesStand numbers.now statics.now)
        (preference_atoms numbers.now slots.now (NumberedGoal.Soft preference.now))
        work.old work.new
        (preferences numbers.now slots.now (NumberedGoal.Soft preference.now)) made.old made.new) }
{
    let body = condition_form(numbers, statics, work, slots, &preference.body)?;
    made.push(GroundPref {
        name: preference.name,
        body,
    })?;
    Ok(())
}

/// Puts the preferences of a goal at the objects in the slots behind those made, in order.
#[cycle(preferences)]
pub fn push_preferences(
    numbers: &Numbers,
    statics: &Statics,
    work: &mut Work,
    slots: &[u32],
    goal: &NumberedGoal,
    made: &mut List<GroundPref>,
) -> Result<(), NoMemory>
    ensures { OnOk result (Pushes (PreferencesStand numbers.now statics.now)
        (preference_atoms numbers.now slots.now goal.now) work.old work.new
        (preferences numbers.now slots.now goal.now) made.old made.new) }
{
    match goal {
        NumberedGoal::Plain(_) => Ok(()),
        NumberedGoal::Both(parts) => {
            push_parts(numbers, statics, work, slots, parts.items(), made)?;
            Ok(())
        }
        NumberedGoal::Each(ranges, body) => {
            let (ranges, body) = (ranges.items(), body.get());
            push_bodies(numbers, statics, work, slots, ranges, body, made)?;
            Ok(())
        }
        NumberedGoal::Soft(preference) => {
            push_preference(numbers, statics, work, slots, preference, made)?;
            Ok(())
        }
    }
}

/// Puts the preferences of the goals behind those made.
#[cycle(preferences)]
fn push_parts(
    numbers: &Numbers,
    statics: &Statics,
    work: &mut Work,
    slots: &[u32],
    parts: &[NumberedGoal],
    made: &mut List<GroundPref>,
) -> Result<(), NoMemory>
    ensures { OnOk result (Pushes (PreferencesStand numbers.now statics.now)
        (flat_map (preference_atoms numbers.now slots.now) parts.now) work.old work.new
        (flat_map (preferences numbers.now slots.now) parts.now) made.old made.new) }
{
    for part in parts {
        push_preferences(numbers, statics, work, slots, part, made)?;
    }
    Ok(())
}

/// Puts the preferences of the body at each choice of objects behind those made.
#[cycle(preferences)]
fn push_bodies(
    numbers: &Numbers,
    statics: &Statics,
    work: &mut Work,
    slots: &[u32],
    ranges: &[u32],
    body: &NumberedGoal,
    made: &mut List<GroundPref>,
) -> Result<(), NoMemory>
    ensures { OnOk result (Pushes (PreferencesStand numbers.now statics.now)
        (flat_map (λ inner. preference_atoms numbers.now inner body.now)
        (bound numbers.now slots.now ranges.now)) work.old work.new
        (flat_map (λ inner. preferences numbers.now inner body.now)
        (bound numbers.now slots.now ranges.now)) made.old made.new) }
{
    let count = choice_count(numbers, ranges)?;
    let mut inner = Vec::from_slice(work.alloc, slots)?;
    for choice in 0..count {
        place_choice(&mut inner, slots.len(), numbers, ranges, count, choice)?;
        push_preferences(numbers, statics, work, inner.as_slice(), body, made)?;
    }
    Ok(())
}
