//! The operators and preferences of a task at objects.

ghost use Rattle.std.specs.Prelude.{◌≡◌, ℕ, ◌++◌, map, IfOk};
ghost use Rattle.std.specs.List.{AllZip};
ghost use Rattle.p3_task.specs.Constraints.{hard_list, instances};
ghost use Rattle.p3_task.specs.Metrics.{step_prefs};
ghost use Rattle.p3_task.specs.Offences.{WellFormed};
ghost use Rattle.p3_task.specs.declared.task.Step.{Step};
ghost use Rattle.p3_numbers.specs.Tasks.{IsNumberedTask};
ghost use Rattle.p3_reasons.specs.Visits.{IsPlaced};
ghost use Rattle.p3_scenes.specs.Bound.{
  hard_roles,
  instance_roles,
  IsBound,
  IsBoundPref,
  IsBoundSoft,
};
ghost use Rattle.p3_scenes.specs.Scenes.{
  SoftScene,
  action_scenes,
  hard_scenes as scenes_of_operators,
  task_scenes,
};
ghost use Rattle.p3_scenes.specs.Seen.{seen, seen_pref, seen_soft};

use crate::bindings::scope_with;
use crate::constraint::{Half, push_operators};
use crate::instance::{push_at_end, push_instances};
use crate::preference::push_preferences;
use crate::scene::{InstanceScene, OperatorScene, PreferenceScene};
use p3_base::{List, NoMemory, Role};
use p3_numbers::NumberedTask;
use p3_reasons::PlacedStep;
use p3_task::Task;
use std::alloc::Global;

/// The operators of a task outside preferences at all bindings, in order, the domain's first.
///
/// # Errors
///
/// Want of memory.
pub fn hard_scenes<'t>(
    alloc: Global,
    task: &'t Task,
    numbered: &'t NumberedTask,
) -> Result<List<OperatorScene<'t>>, NoMemory>
    requires well_formed { WellFormed task.now }
    requires numbered { IsNumberedTask task.now numbered.now }
    ensures bound { IfOk result (λ list. AllZip (IsBound numbered.now.numbers)
        (hard_list task.now) (map seen list)) }
    ensures roles { IfOk result (λ list. map (λ scene. scene.role) (map seen list)
        ≡ hard_roles task.now) }
{
    let mut found = List::new(alloc);
    let numbers = &numbered.numbers;
    let (first, first_other) = (&task.domain.constraints.body, &numbered.domain_constraints);
    let (last, last_other) = (
        &task.problem.constraints.body,
        &numbered.problem_constraints,
    );
    let half = Half {
        alloc,
        numbers,
        role: Role::Domain,
    };
    push_operators(&half, false, first, first_other, &[], &[], &mut found)?;
    let half = Half {
        alloc,
        numbers,
        role: Role::Problem,
    };
    push_operators(&half, false, last, last_other, &[], &[], &mut found)?;
    Ok(found)
}

/// The preferences of a task over the visited states at all bindings, in order: those of the
/// constraints of the domain, of the problem, and of the goal.
///
/// # Errors
///
/// Want of memory.
pub fn instance_scenes<'t>(
    alloc: Global,
    task: &'t Task,
    numbered: &'t NumberedTask,
) -> Result<List<InstanceScene<'t>>, NoMemory>
    requires well_formed { WellFormed task.now }
    requires numbered { IsNumberedTask task.now numbered.now }
    ensures bound { IfOk result (λ list. AllZip (IsBoundSoft task.now numbered.now.numbers)
        (instances task.now) (map seen_soft list)) }
    ensures roles { IfOk result (λ list. map (λ scene. scene.role) (map seen_soft list)
        ≡ instance_roles task.now) }
{
    let mut found = List::new(alloc);
    let numbers = &numbered.numbers;
    let (tree, other) = (&task.domain.constraints.body, &numbered.domain_constraints);
    let half = Half {
        alloc,
        numbers,
        role: Role::Domain,
    };
    push_instances(&half, tree, other, &[], &[], &mut found)?;
    let (tree, other) = (
        &task.problem.constraints.body,
        &numbered.problem_constraints,
    );
    let half = Half {
        alloc,
        numbers,
        role: Role::Problem,
    };
    push_instances(&half, tree, other, &[], &[], &mut found)?;
    let mut goal = List::new(alloc);
    let (tree, other) = (&task.problem.goal.body, &numbered.goal);
    push_preferences(alloc, numbers, tree, other, &[], &[], &mut goal)?;
    push_at_end(alloc, goal, &mut found)?;
    Ok(found)
}

/// The preferences in the precondition of a step at its objects, in order.
///
/// # Errors
///
/// Want of memory.
pub fn preference_scenes<'t>(
    alloc: Global,
    task: &'t Task,
    numbered: &'t NumberedTask,
    step: &PlacedStep,
) -> Result<List<PreferenceScene<'t>>, NoMemory>
    requires well_formed { WellFormed task.now }
    requires numbered { IsNumberedTask task.now numbered.now }
    ensures { IfOk result (λ list. (own : Step) → IsPlaced task.now numbered.now own step.now
        → AllZip (IsBoundPref numbered.now.numbers)
        (step_prefs task.now own) (map seen_pref list)) }
{
    let mut found = List::new(alloc);
    let place = step.action as usize;
    let Some(action) = task.domain.actions.get(place) else {
        return Ok(found);
    };
    let Some(other) = numbered.actions.get(place) else {
        return Ok(found);
    };
    let scope = scope_with(alloc, &[], action.params.items())?;
    let (goal, pre) = (&action.pre.body, &other.pre);
    let numbers = &numbered.numbers;
    let objects = step.objects.items();
    push_preferences(
        alloc,
        numbers,
        goal,
        pre,
        scope.as_slice(),
        objects,
        &mut found,
    )?;
    Ok(found)
}
