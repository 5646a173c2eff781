//! The preferences of a constraint at objects.

ghost use Rattle.std.specs.Prelude.{◌≡◌, ◌∷◌, [], ◌++◌, map, flat_map, OnOk, IfOk};
ghost use Rattle.p3_numbers.specs.Constraints.{constraint_of};
ghost use Rattle.p3_numbers.specs.Slots.{bound};
ghost use Rattle.p3_scenes.specs.Lent.{lent_words};
ghost use Rattle.p3_scenes.specs.Scenes.{at_end as of_last_state, soft_scene_of, soft_scenes};
ghost use Rattle.p3_scenes.specs.Seen.{IsOverLastState, seen_pref, seen_soft};

use crate::bindings::{Bindings, scope_with};
use crate::constraint::{Half, push_operators};
use crate::parts::{body_in, constraints_in, ranges_in};
use crate::preference::name_of;
use crate::scene::{InstanceScene, OperatorScene, PreferenceScene};
use p3_base::{List, Name, NoMemory, Operator, Role};
use p3_expansion::{choice_count, place_choice};
use p3_numbers::NumberedConstraint;
use p3_task::{Constraint, Ref};
use std::alloc::Global;

/// A preference at the objects in the slots.
fn instance_scene<'t>(
    half: &Half<'_>,
    at: u32,
    name: &'t Option<Ref>,
    body: &'t Constraint,
    other: &'t NumberedConstraint,
    scope: &[&'t Name],
    slots: &[u32],
) -> Result<InstanceScene<'t>, NoMemory>
    requires { other.now ≡ constraint_of half.now.numbers.now body.now (lent_words scope.now) }
    ensures { IfOk result (λ scene. seen_soft scene ≡ soft_scene_of half.now.numbers.now
        half.now.role at name.now body.now (lent_words scope.now) slots.now) }
{
    let mut operators = List::new(half.alloc);
    push_operators(half, true, body, other, scope, slots, &mut operators)?;
    let bindings = Bindings::of(half.alloc, scope, slots)?;
    Ok(InstanceScene {
        role: half.role,
        at,
        name: name_of(name),
        bindings,
        operators,
    })
}

/// Puts the preferences of a constraint at the objects in the slots behind those found, in order.
#[cycle(instances)]
pub(crate) fn push_instances<'t>(
    half: &Half<'_>,
    constraint: &'t Constraint,
    numbered: &'t NumberedConstraint,
    scope: &[&'t Name],
    slots: &[u32],
    found: &mut List<InstanceScene<'t>>,
) -> Result<(), NoMemory>
    requires { numbered.now
        ≡ constraint_of half.now.numbers.now constraint.now (lent_words scope.now) }
    ensures { OnOk result (map seen_soft found.new ≡ map seen_soft found.old ++ soft_scenes
        half.now.numbers.now half.now.role constraint.now (lent_words scope.now) slots.now) }
{
    match constraint {
        Constraint::Both(parts) => {
            let others = constraints_in(numbered);
            push_parts(half, parts.items(), others, scope, slots, found)
        }
        Constraint::Each(variables, body) => {
            let (ranges, other) = (ranges_in(numbered), body_in(numbered));
            let inner = scope_with(half.alloc, scope, variables.items())?;
            push_bodies(
                half,
                body.get(),
                other,
                inner.as_slice(),
                ranges,
                slots,
                found,
            )
        }
        Constraint::Single(_) => Ok(()),
        Constraint::Soft { at, name, body } => {
            let (body, other) = (body.get(), body_in(numbered));
            let scene = instance_scene(half, *at, name, body, other, scope, slots)?;
            found.push(scene)?;
            Ok(())
        }
    }
}

/// Puts the preferences of all parts behind those found.
#[cycle(instances)]
fn push_parts<'t>(
    half: &Half<'_>,
    parts: &'t [Constraint],
    others: &'t [NumberedConstraint],
    scope: &[&'t Name],
    slots: &[u32],
    found: &mut List<InstanceScene<'t>>,
) -> Result<(), NoMemory>
    requires { others.now ≡ map (λ part. constraint_of half.now.numbers.now part
        (lent_words scope.now)) parts.now }
    ensures { OnOk result (map seen_soft found.new ≡ map seen_soft found.old ++ flat_map
        (λ part. soft_scenes half.now.numbers.now half.now.role part
        (lent_words scope.now) slots.now) parts.now) }
{
    for place in 0..parts.len() {
        push_instances(half, &parts[place], &others[place], scope, slots, found)?;
    }
    Ok(())
}

/// Puts the preferences of the body at each choice of objects behind those found.
#[cycle(instances)]
fn push_bodies<'t>(
    half: &Half<'_>,
    body: &'t Constraint,
    other: &'t NumberedConstraint,
    scope: &[&'t Name],
    ranges: &[u32],
    slots: &[u32],
    found: &mut List<InstanceScene<'t>>,
) -> Result<(), NoMemory>
    requires { other.now ≡ constraint_of half.now.numbers.now body.now (lent_words scope.now) }
    ensures { OnOk result (map seen_soft found.new ≡ map seen_soft found.old ++ flat_map
        (soft_scenes half.now.numbers.now half.now.role body.now (lent_words scope.now))
        (bound half.now.numbers.now slots.now ranges.now)) }
{
    let count = choice_count(half.numbers, ranges)?;
    let mut inner = Vec::from_slice(half.alloc, slots)?;
    for choice in 0..count {
        place_choice(&mut inner, slots.len(), half.numbers, ranges, count, choice)?;
        push_instances(half, body, other, scope, inner.as_slice(), found)?;
    }
    Ok(())
}

/// A preference of the goal, over the last state.
fn at_end<'t>(alloc: Global, preference: PreferenceScene<'t>) -> Result<InstanceScene<'t>, NoMemory>
    ensures { IfOk result (IsOverLastState (seen_pref preference.entry)) }
{
    let PreferenceScene {
        at,
        name,
        word,
        condition,
        bindings,
    } = preference;
    let role = Role::Problem;
    let mut operators = List::new(alloc);
    operators.push(OperatorScene {
        role,
        word,
        operator: Operator::AtEnd(condition),
        bindings: bindings.copied(alloc)?,
    })?;
    Ok(InstanceScene {
        role,
        at,
        name,
        bindings,
        operators,
    })
}

/// Puts preferences of the goal behind the instances found, each over the last state.
pub(crate) fn push_at_end<'t>(
    alloc: Global,
    preferences: List<PreferenceScene<'t>>,
    found: &mut List<InstanceScene<'t>>,
) -> Result<(), NoMemory>
    ensures { OnOk result (map seen_soft found.new ≡ map seen_soft found.old
        ++ map of_last_state (map seen_pref preferences.entry)) }
{
    for preference in preferences.into_items() {
        let instance = at_end(alloc, preference)?;
        found.push(instance)?;
    }
    Ok(())
}
