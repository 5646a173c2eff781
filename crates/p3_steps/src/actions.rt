//! The steps of all actions.

ghost use Rattle.std.specs.Prelude.{◌≡◌, ◌+◌, ◌<◌, ◌≤◌, map, IfOk, OnOk};
ghost use Rattle.std.specs.List.{All};
ghost use Rattle.std.specs.List.Sorted.{IsStrictlyIncreasing};
ghost use Rattle.p3_task.specs.Sides.{step_count_limit};
ghost use Rattle.p3_numbers.specs.Choices.{choice_count as count_of};
ghost use Rattle.p3_expansion.specs.Walks.{Pushes};
ghost use Rattle.p3_steps.specs.Steps.{
  MakesSteps,
  StepsAreMade,
  action_steps,
  action_steps_among,
  all_atoms,
  count_of_steps,
  planned_among,
  planned_step,
  planned_steps,
};

use crate::choices::{candidates, candidates_among};
use crate::costs::EffectCosts;
use crate::made::{room_of, step_at};
use p3_base::{List, NoMemory};
use p3_expansion::{Statics, Work, choice_count, place_choice};
use p3_formula::GroundStep;
use p3_numbers::{NumberedAction, NumberedTask};

/// Puts the steps of an action at these choices behind those made; their numbers follow on those of
/// so many steps.
fn push_steps_at(
    task: &NumberedTask,
    statics: &Statics,
    costs: &EffectCosts,
    work: &mut Work,
    action: &NumberedAction,
    first: u32,
    choices: &[u32],
    made: &mut List<GroundStep>,
) -> Result<(), NoMemory>
    requires few { first + count_of task.now.numbers action.now.ranges ≤ step_count_limit }
    requires values { costs.now.values.now ≡ task.now.values }
    requires within { All (λ choice. choice < count_of task.now.numbers action.now.ranges)
        choices.now }
    ensures { OnOk result (Pushes (StepsAreMade task.now statics.now costs.now.places)
        (all_atoms task.now.numbers (map (planned_step action.now first) choices.now))
        work.old work.new
        (map (planned_step action.now first) choices.now) made.old made.new) }
{
    let numbers = &task.numbers;
    let ranges = action.ranges.items();
    let count = choice_count(numbers, ranges)?;
    let room = room_of(action);
    let mut words = Vec::new(work.alloc);
    let mut slots = Vec::new(work.alloc);
    for choice in choices {
        place_choice(&mut slots, 0, numbers, ranges, count, *choice as usize)?;
        let step = step_at(
            task,
            statics,
            costs,
            work,
            &mut words,
            slots.as_slice(),
            action,
            first,
            *choice,
            room,
        )?;
        made.push(step)?;
    }
    Ok(())
}

/// Puts the steps of an action that may begin behind those made; their numbers follow on those of
/// so many steps.
fn push_action_steps(
    task: &NumberedTask,
    statics: &Statics,
    costs: &EffectCosts,
    work: &mut Work,
    action: &NumberedAction,
    first: u32,
    made: &mut List<GroundStep>,
) -> Result<(), NoMemory>
    requires few { first + count_of task.now.numbers action.now.ranges ≤ step_count_limit }
    requires values { costs.now.values.now ≡ task.now.values }
    ensures { OnOk result (Pushes (StepsAreMade task.now statics.now costs.now.places)
        (all_atoms task.now.numbers (action_steps task.now.numbers statics.now action.now first))
        work.old work.new
        (action_steps task.now.numbers statics.now action.now first) made.old made.new) }
{
    let ranges = action.ranges.items();
    let kept = candidates(work.alloc, &task.numbers, statics, ranges, &action.pre)?;
    push_steps_at(
        task,
        statics,
        costs,
        work,
        action,
        first,
        kept.as_slice(),
        made,
    )
}

/// Puts the steps of an action that have these numbers and may begin behind those made.
fn push_steps_among(
    task: &NumberedTask,
    statics: &Statics,
    costs: &EffectCosts,
    work: &mut Work,
    action: &NumberedAction,
    first: u32,
    those: &[u32],
    made: &mut List<GroundStep>,
) -> Result<(), NoMemory>
    requires few { first + count_of task.now.numbers action.now.ranges ≤ step_count_limit }
    requires values { costs.now.values.now ≡ task.now.values }
    requires from { All (λ number. first ≤ number) those.now }
    requires within { All
        (λ number. number < first + count_of task.now.numbers action.now.ranges) those.now }
    ensures { OnOk result (Pushes (StepsAreMade task.now statics.now costs.now.places)
        (all_atoms task.now.numbers
        (action_steps_among task.now.numbers statics.now action.now first those.now))
        work.old work.new
        (action_steps_among task.now.numbers statics.now action.now first those.now)
        made.old made.new) }
{
    let ranges = action.ranges.items();
    let kept = candidates_among(
        work.alloc,
        &task.numbers,
        statics,
        ranges,
        &action.pre,
        first,
        those,
    )?;
    push_steps_at(
        task,
        statics,
        costs,
        work,
        action,
        first,
        kept.as_slice(),
        made,
    )
}

/// The steps of a numbered task that may begin in some state that keeps what no step changes, each
/// with its number among all steps, rising. Nothing of a step that is left out is expanded.
pub fn steps(
    task: &NumberedTask,
    statics: &Statics,
    costs: &EffectCosts,
    work: &mut Work,
) -> Result<List<GroundStep>, NoMemory>
    requires few { count_of_steps task.now.numbers task.now.actions ≤ step_count_limit }
    requires values { costs.now.values.now ≡ task.now.values }
    ensures { IfOk result (MakesSteps task.now statics.now costs.now.places
        (planned_steps task.now statics.now) work.old work.new) }
{
    let mut made = List::new(work.alloc);
    let mut first = 0u32;
    for action in task.actions.items() {
        push_action_steps(task, statics, costs, work, action, first, &mut made)?;
        first += choice_count(&task.numbers, action.ranges.items())? as u32;
    }
    Ok(made)
}

/// The steps of these numbers, which rise, that may begin in some state that keeps what no step
/// changes. Nothing of the others is expanded; a number is found among the choices of its action by
/// division, and numbers without a step are passed over.
pub fn steps_among(
    task: &NumberedTask,
    statics: &Statics,
    costs: &EffectCosts,
    work: &mut Work,
    those: &[u32],
) -> Result<List<GroundStep>, NoMemory>
    requires few { count_of_steps task.now.numbers task.now.actions ≤ step_count_limit }
    requires values { costs.now.values.now ≡ task.now.values }
    requires rising { IsStrictlyIncreasing those.now }
    ensures { IfOk result (MakesSteps task.now statics.now costs.now.places
        (planned_among task.now statics.now those.now) work.old work.new) }
{
    let mut made = List::new(work.alloc);
    let mut first = 0u32;
    let mut left = those;
    for action in task.actions.items() {
        let end = first + choice_count(&task.numbers, action.ranges.items())? as u32;
        let (here, later) = left.split_at(left.partition_point(|number| *number < end));
        push_steps_among(task, statics, costs, work, action, first, here, &mut made)?;
        first = end;
        left = later;
    }
    Ok(made)
}
