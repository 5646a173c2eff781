//! One step of a numbered task as a ground step.

ghost use Rattle.std.specs.Prelude.{◌≡◌, ◌+◌, ◌≤◌, IfOk};
ghost use Rattle.p3_task.specs.Sides.{step_count_limit};
ghost use Rattle.p3_numbers.specs.Choices.{choice as objects_of_choice};
ghost use Rattle.p3_steps.specs.Steps.{MakesStep, planned_step};

use crate::costs::EffectCosts;
use p3_base::{List, NoMemory};
use p3_expansion::{
    Statics, Work, changes, hard_form, literal_count, preference_count, push_preferences,
};
use p3_formula::GroundStep;
use p3_numbers::{NumberedAction, NumberedTask};

/// Room for the lists of a step.
#[derive(Clone, Copy)]
pub(crate) struct Room {
    /// How many preferences it has, where each body is taken once.
    preferences: usize,
    /// How many literals it has, where each body is taken once.
    changes: usize,
}

/// Room for the lists of a step of the action.
pub(crate) fn room_of(action: &NumberedAction) -> Room {
    Room {
        preferences: preference_count(&action.pre),
        changes: literal_count(&action.effect),
    }
}

/// The ground step of an action at the objects in the slots, which are those of the choice of that
/// number. Its number follows on those of so many steps.
pub(crate) fn step_at(
    task: &NumberedTask,
    statics: &Statics,
    costs: &EffectCosts,
    work: &mut Work,
    words: &mut Vec<u32>,
    slots: &[u32],
    action: &NumberedAction,
    first: u32,
    choice: u32,
    room: Room,
) -> Result<GroundStep, NoMemory>
    requires slots { slots.now ≡ objects_of_choice task.now.numbers action.now.ranges choice }
    requires few { first + choice ≤ step_count_limit }
    requires values { costs.now.values.now ≡ task.now.values }
    ensures { IfOk result (MakesStep task.now statics.now costs.now.places
        (planned_step action.now first choice) work.old work.new) }
{
    let numbers = &task.numbers;
    let pre = hard_form(numbers, statics, work, slots, &action.pre)?;
    let mut prefs = List::from(Vec::with_capacity(work.alloc, room.preferences)?);
    push_preferences(numbers, statics, work, slots, &action.pre, &mut prefs)?;
    let effects = changes(numbers, statics, work, slots, &action.effect, room.changes)?;
    let cost = costs.cost(words, slots, &action.effect)?;
    Ok(GroundStep {
        number: first + choice,
        pre,
        prefs,
        effects,
        cost,
    })
}
