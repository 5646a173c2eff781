//! The preferences of constraints and goals at objects as instances over the visited states.

ghost use Rattle.std.specs.Prelude.{◌≡◌, ℕ, [], ◌∷◌, ◌++◌, flat_map, map, OnOk, IfOk};
ghost use Rattle.p3_numbers.specs.Constraints.{soft_instances};
ghost use Rattle.p3_numbers.specs.Goals.{preferences};
ghost use Rattle.p3_numbers.specs.Slots.{bound};
ghost use Rattle.p3_expansion.specs.Instances.{
  InstancesStand,
  PushesInstances,
  at_end,
  instance_atoms,
  made_at_end,
};
ghost use Rattle.p3_expansion.specs.Walks.{Pushes};

use crate::choices::{choice_count, place_choice};
use crate::constraint::push_operators;
use crate::preference::push_preferences;
use crate::{Statics, Work};
use p3_base::{List, NoMemory};
use p3_formula::{GroundModal, GroundPref, GroundSoft};
use p3_numbers::{NumberedConstraint, NumberedGoal, Numbers};
use std::alloc::Global;

/// Puts the preference at the objects in the slots behind those made.
fn push_instance(
    numbers: &Numbers,
    statics: &Statics,
    work: &mut Work,
    slots: &[u32],
    name: Option<u32>,
    body: &NumberedConstraint,
    made: &mut List<GroundSoft>,
) -> Result<(), NoMemory>
    ensures { OnOk result ((at : ℕ) → PushesInstances numbers.now statics.now
        (record { at = at; name = name; body = body.now; slots = slots.now } ∷ [])
        work.old work.new made.old made.new) }
{
    let mut parts = List::new(work.alloc);
    push_operators(numbers, statics, work, slots, true, body, &mut parts)?;
    parts.shrink_to_fit();
    made.push(GroundSoft { name, parts })?;
    Ok(())
}

/// Puts the preferences of a constraint at the objects in the slots behind those made, in order.
#[cycle(instances)]
pub(crate) fn push_instances(
    numbers: &Numbers,
    statics: &Statics,
    work: &mut Work,
    slots: &[u32],
    constraint: &NumberedConstraint,
    made: &mut List<GroundSoft>,
) -> Result<(), NoMemory>
    ensures { OnOk result (PushesInstances numbers.now statics.now
        (soft_instances numbers.now constraint.now slots.now) work.old work.new
        made.old made.new) }
{
    match constraint {
        NumberedConstraint::Both(parts) => {
            push_parts(numbers, statics, work, slots, parts.items(), made)?;
            Ok(())
        }
        NumberedConstraint::Each(ranges, body) => {
            let (ranges, body) = (ranges.items(), body.get());
            push_bodies(numbers, statics, work, slots, ranges, body, made)?;
            Ok(())
        }
        NumberedConstraint::Single(_) => Ok(()),
        NumberedConstraint::Soft { name, body, .. } => {
            push_instance(numbers, statics, work, slots, *name, body.get(), made)?;
            Ok(())
        }
    }
}

/// Puts the preferences of the constraints behind those made.
#[cycle(instances)]
fn push_parts(
    numbers: &Numbers,
    statics: &Statics,
    work: &mut Work,
    slots: &[u32],
    parts: &[NumberedConstraint],
    made: &mut List<GroundSoft>,
) -> Result<(), NoMemory>
    ensures { OnOk result (Pushes (InstancesStand numbers.now statics.now)
        (flat_map (λ part. flat_map (instance_atoms numbers.now)
        (soft_instances numbers.now part slots.now)) parts.now) work.old work.new
        (flat_map (λ part. soft_instances numbers.now part slots.now) parts.now)
        made.old made.new) }
{
    for part in parts {
        push_instances(numbers, statics, work, slots, part, made)?;
    }
    Ok(())
}

/// Puts the preferences of the body at each choice of objects behind those made.
#[cycle(instances)]
fn push_bodies(
    numbers: &Numbers,
    statics: &Statics,
    work: &mut Work,
    slots: &[u32],
    ranges: &[u32],
    body: &NumberedConstraint,
    made: &mut List<GroundSoft>,
) -> Result<(), NoMemory>
    ensures { OnOk result (Pushes (InstancesStand numbers.now statics.now)
        (flat_map (λ inner. flat_map (instance_atoms numbers.now)
        (soft_instances numbers.now body.now inner)) (bound numbers.now slots.now ranges.now))
        work.old work.new
        (flat_map (soft_instances numbers.now body.now)
        (bound numbers.now slots.now ranges.now)) made.old made.new) }
{
    let count = choice_count(numbers, ranges)?;
    let mut inner = Vec::from_slice(work.alloc, slots)?;
    for choice in 0..count {
        place_choice(&mut inner, slots.len(), numbers, ranges, count, choice)?;
        push_instances(numbers, statics, work, inner.as_slice(), body, made)?;
    }
    Ok(())
}

/// A preference as one over the last state.
fn instance_at_end(alloc: Global, preference: GroundPref) -> Result<GroundSoft, NoMemory>
    ensures { IfOk result (λ instance. instance ≡ made_at_end preference) }
{
    let GroundPref { name, body } = preference;
    let mut parts = List::with_capacity(alloc, 1)?;
    parts.push(GroundModal::AtEnd(body))?;
    Ok(GroundSoft { name, parts })
}

/// Puts the preferences over the last state behind those made.
fn push_at_end(
    alloc: Global,
    preferences: List<GroundPref>,
    made: &mut List<GroundSoft>,
) -> Result<(), NoMemory>
    ensures { OnOk result (made.new ≡ made.old ++ map made_at_end preferences) }
{
    for preference in preferences.into_items() {
        let instance = instance_at_end(alloc, preference)?;
        made.push(instance)?;
    }
    Ok(())
}

/// Puts the preferences of a goal, which speak of the last state, at the objects in the slots behind
/// those made, in order.
pub(crate) fn push_goal_instances(
    numbers: &Numbers,
    statics: &Statics,
    work: &mut Work,
    slots: &[u32],
    goal: &NumberedGoal,
    made: &mut List<GroundSoft>,
) -> Result<(), NoMemory>
    ensures { OnOk result (PushesInstances numbers.now statics.now
        (map at_end (preferences numbers.now slots.now goal.now)) work.old work.new
        made.old made.new) }
{
    let mut preferences = List::new(work.alloc);
    push_preferences(numbers, statics, work, slots, goal, &mut preferences)?;
    push_at_end(work.alloc, preferences, made)?;
    Ok(())
}
