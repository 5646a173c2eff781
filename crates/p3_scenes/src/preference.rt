//! The preferences of a precondition or a goal at objects.

ghost use Rattle.std.specs.Prelude.{◌≡◌, ◌∷◌, [], ◌++◌, map, flat_map, OnOk, IfOk};
ghost use Rattle.p3_task.specs.Goals.{named};
ghost use Rattle.p3_numbers.specs.Goals.{goal_of};
ghost use Rattle.p3_numbers.specs.Slots.{bound};
ghost use Rattle.p3_scenes.specs.Lent.{lent_name, lent_words};
ghost use Rattle.p3_scenes.specs.Scenes.{state_scene_of, state_scenes};
ghost use Rattle.p3_scenes.specs.Seen.{seen_pref};

use crate::bindings::{Bindings, scope_with};
use crate::first_word::formula_word;
use crate::parts::{goal_body_in, goal_ranges_in, goals_in, preference_in};
use crate::scene::PreferenceScene;
use p3_base::{List, Name, NoMemory};
use p3_expansion::{choice_count, place_choice};
use p3_numbers::{NumberedGoal, NumberedPreference, Numbers};
use p3_task::{PreGoal, Pref, Ref};
use std::alloc::Global;

/// The name of a preference, where it has one.
pub(crate) fn name_of(name: &Option<Ref>) -> Option<&Name>
    ensures { lent_name result ≡ named name.now }
{
    match name {
        Some(word) => Some(&word.name),
        None => None,
    }
}

/// A preference at the objects in the slots.
fn preference_scene<'t>(
    alloc: Global,
    preference: &'t Pref,
    numbered: &'t NumberedPreference,
    scope: &[&'t Name],
    slots: &[u32],
) -> Result<PreferenceScene<'t>, NoMemory>
    ensures { IfOk result (λ scene. seen_pref scene
        ≡ state_scene_of preference.now numbered.now.body (lent_words scope.now) slots.now) }
{
    let bindings = Bindings::of(alloc, scope, slots)?;
    Ok(PreferenceScene {
        at: preference.at,
        name: name_of(&preference.name),
        word: formula_word(&preference.body),
        condition: &numbered.body,
        bindings,
    })
}

/// Puts the preferences of a precondition or a goal at the objects in the slots behind those found,
/// in order.
#[cycle(preferences)]
pub(crate) fn push_preferences<'t>(
    alloc: Global,
    numbers: &Numbers,
    goal: &'t PreGoal,
    numbered: &'t NumberedGoal,
    scope: &[&'t Name],
    slots: &[u32],
    found: &mut List<PreferenceScene<'t>>,
) -> Result<(), NoMemory>
    requires { numbered.now ≡ goal_of numbers.now goal.now (lent_words scope.now) }
    ensures { OnOk result (map seen_pref found.new ≡ map seen_pref found.old
        ++ state_scenes numbers.now goal.now (lent_words scope.now) slots.now) }
{
    match goal {
        PreGoal::Plain(_) => Ok(()),
        PreGoal::Both(parts) => {
            let others = goals_in(numbered);
            push_parts(alloc, numbers, parts.items(), others, scope, slots, found)
        }
        PreGoal::Each(variables, body) => {
            let (ranges, other) = (goal_ranges_in(numbered), goal_body_in(numbered));
            let inner = scope_with(alloc, scope, variables.items())?;
            push_bodies(
                alloc,
                numbers,
                body.get(),
                other,
                inner.as_slice(),
                ranges,
                slots,
                found,
            )
        }
        PreGoal::Soft(preference) => {
            let Some(other) = preference_in(numbered) else {
                unreachable!()
            };
            let scene = preference_scene(alloc, preference.get(), other, scope, slots)?;
            found.push(scene)?;
            Ok(())
        }
    }
}

/// Puts the preferences of all parts behind those found.
#[cycle(preferences)]
fn push_parts<'t>(
    alloc: Global,
    numbers: &Numbers,
    parts: &'t [PreGoal],
    others: &'t [NumberedGoal],
    scope: &[&'t Name],
    slots: &[u32],
    found: &mut List<PreferenceScene<'t>>,
) -> Result<(), NoMemory>
    requires { others.now
        ≡ map (λ part. goal_of numbers.now part (lent_words scope.now)) parts.now }
    ensures { OnOk result (map seen_pref found.new ≡ map seen_pref found.old ++ flat_map
        (λ part. state_scenes numbers.now part (lent_words scope.now) slots.now) parts.now) }
{
    for place in 0..parts.len() {
        push_preferences(
            alloc,
            numbers,
            &parts[place],
            &others[place],
            scope,
            slots,
            found,
        )?;
    }
    Ok(())
}

/// Puts the preferences of the body at each choice of objects behind those found.
#[cycle(preferences)]
fn push_bodies<'t>(
    alloc: Global,
    numbers: &Numbers,
    body: &'t PreGoal,
    other: &'t NumberedGoal,
    scope: &[&'t Name],
    ranges: &[u32],
    slots: &[u32],
    found: &mut List<PreferenceScene<'t>>,
) -> Result<(), NoMemory>
    requires { other.now ≡ goal_of numbers.now body.now (lent_words scope.now) }
    ensures { OnOk result (map seen_pref found.new ≡ map seen_pref found.old ++ flat_map
        (state_scenes numbers.now body.now (lent_words scope.now))
        (bound numbers.now slots.now ranges.now)) }
{
    let count = choice_count(numbers, ranges)?;
    let mut inner = Vec::from_slice(alloc, slots)?;
    for choice in 0..count {
        place_choice(&mut inner, slots.len(), numbers, ranges, count, choice)?;
        push_preferences(alloc, numbers, body, other, scope, inner.as_slice(), found)?;
    }
    Ok(())
}
