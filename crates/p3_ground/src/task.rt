//! From a checked task to its ground task.

ghost use Rattle.std.specs.Prelude.{◌≡◌, ◌≤◌, ◌++◌, ◌∷◌, [], false, drop as drop_first, if◌then◌else◌};
ghost use Rattle.std.specs.Prelude.{slice_index_or, None, IfOk, IfErr, OnOk};
ghost use Rattle.std.specs.List.{list_all};
ghost use Rattle.std.specs.List.Sorted.{IsStrictlyIncreasing};
ghost use Rattle.p3_task.specs.Limits.{step_count};
ghost use Rattle.p3_task.specs.Sides.{step_count_limit};
ghost use Rattle.p3_reach.specs.Closed.{steps_that_may};
ghost use Rattle.p3_formula.specs.Forms.{State};
ghost use Rattle.p3_ground.specs.Pruned.{pruned, steps_over};
ghost use Rattle.p3_ground.specs.Rests.{joined_of};
ghost use Rattle.p3_ground.specs.Sparse.{IsGroundingAmong, IsGroundingOf};
ghost use Rattle.p3_ground.specs.Whole.{IsFailOf, IsWhole, IsWithinLimits};

use crate::error::GroundFail;
use crate::rest::{Rest, Taken};
use crate::whole::whole;
use p3_base::{List, NoMemory};
use p3_formula::{GroundStep, GroundTask};
use p3_limits::size_refusal;
use p3_reach::reachable;
use p3_types::Checked;
use std::alloc::Global;

/// The step goes last where it is marked.
fn keep(kept: &mut List<GroundStep>, step: GroundStep, is_marked: bool) -> Result<(), NoMemory>
    ensures { OnOk result
        (kept.new ≡ (if is_marked then kept.old ++ step ∷ [] else kept.old)) }
{
    if is_marked {
        kept.push(step)?;
        return Ok(());
    }
    drop(step);
    Ok(())
}

/// Whether the first mark is set.
fn is_first_set(marks: &[bool]) -> bool
    ensures { result ≡ slice_index_or marks.now 0 false }
{
    match marks {
        [] => false,
        [mark, ..] => *mark,
    }
}

/// The marks behind the first.
fn behind_first(marks: &[bool]) -> &[bool]
    ensures { result.now ≡ drop_first 1 marks.now }
{
    match marks {
        [] => &[],
        [_, rest @ ..] => rest,
    }
}

/// Tells whether all marks are set.
fn are_all_set(marks: &[bool]) -> bool
    ensures { result ≡ list_all (λ mark. mark) marks.now }
{
    marks.iter().all(|mark| *mark)
}

/// Takes the marked steps one by one.
fn sifted_steps(
    alloc: Global,
    steps: List<GroundStep>,
    marks: &[bool],
) -> Result<List<GroundStep>, NoMemory>
    ensures { IfOk result (λ kept. (set : State) → marks.now ≡ steps_that_may set steps
        → kept ≡ steps_over set steps) }
{
    let mut kept = List::new(alloc);
    let mut left = marks;
    for step in steps.into_items() {
        keep(&mut kept, step, is_first_set(left))?;
        left = behind_first(left);
    }
    Ok(kept)
}

/// Gives the steps that are marked. Where all are, they stay where they lie.
fn marked_steps(
    alloc: Global,
    steps: List<GroundStep>,
    marks: &[bool],
) -> Result<List<GroundStep>, NoMemory>
    ensures { IfOk result (λ kept. (set : State) → marks.now ≡ steps_that_may set steps
        → kept ≡ steps_over set steps) }
{
    if are_all_set(marks) {
        return Ok(steps);
    }
    sifted_steps(alloc, steps, marks)
}

/// Takes the steps out.
fn taken(task: GroundTask) -> Taken
    ensures { joined_of result.rest result.steps ≡ task }
{
    Taken {
        steps: task.steps,
        rest: Rest {
            atoms: task.atoms,
            initial: task.initial,
            initial_cost: task.initial_cost,
            step_count: task.step_count,
            goal: task.goal,
            hard: task.hard,
            soft: task.soft,
            names: task.names,
        },
    }
}

/// Puts steps in.
fn joined(rest: Rest, steps: List<GroundStep>) -> GroundTask
    ensures { result ≡ joined_of rest steps }
{
    GroundTask {
        atoms: rest.atoms,
        initial: rest.initial,
        initial_cost: rest.initial_cost,
        step_count: rest.step_count,
        steps,
        goal: rest.goal,
        hard: rest.hard,
        soft: rest.soft,
        names: rest.names,
    }
}

/// A ground task with the marked steps alone.
fn with_marked(alloc: Global, task: GroundTask, marks: &[bool]) -> Result<GroundTask, NoMemory>
    ensures { IfOk result (λ kept. (set : State) → marks.now ≡ steps_that_may set task.steps
        → kept ≡ pruned set task) }
{
    let taken = taken(task);
    let steps = marked_steps(alloc, taken.steps, marks)?;
    Ok(joined(taken.rest, steps))
}

/// A ground task of all steps that may begin without those that can never fit.
fn without_unfit(alloc: Global, task: GroundTask, checked: &Checked) -> Result<GroundTask, NoMemory>
    requires { IsWhole checked.now.task checked.now.numbered None task }
    ensures { IfOk result (IsGroundingOf checked.now.task) }
{
    let marks = reachable(alloc, &task)?;
    let kept = with_marked(alloc, task, marks.steps.items())?;
    Ok(kept)
}

/// The ground task that stands for a task. Its costs are in units of the last decimal place that
/// one of the task's costs has.
///
/// Steps that can never fit are left out: first those whose static conditions fail for the objects
/// chosen so far, of which nothing is expanded, then those that no reached state can begin.
///
/// Errors: the first limit that the task's sizes pass, or want of memory. A task whose initial total
/// cost is 10^18 units or more is refused by its metric before it comes here.
pub fn ground(alloc: Global, task: &Checked) -> Result<GroundTask, GroundFail>
    ensures grounding { IfOk result (IsGroundingOf task.now.task) }
    ensures accepted { OnOk result (IsWithinLimits task.now.side task.now.task) }
    ensures refused { IfErr result (IsFailOf task.now.side task.now.task) }
{
    if let Some(refusal) = size_refusal(task.side(), task.task(), task.numbered())? {
        return Err(GroundFail::Refused(refusal));
    }
    let whole = whole(alloc, task, None)?;
    let ground = without_unfit(alloc, whole, task)?;
    Ok(ground)
}

/// The ground task of the steps of these numbers alone, which rise. It stands for the task in them:
/// those whose static conditions fail for their objects are left out, and nothing of them or of any
/// other step is expanded.
///
/// Nothing is refused of the task here: that it has no more steps than it may is asked for.
///
/// # Errors
///
/// Want of memory.
pub fn ground_among(alloc: Global, task: &Checked, those: &[u32]) -> Result<GroundTask, NoMemory>
    requires few { step_count task.now.task ≤ step_count_limit }
    requires rising { IsStrictlyIncreasing those.now }
    ensures { IfOk result (IsGroundingAmong task.now.task those.now) }
{
    // what is known of a checked task
    let _ = task.task();
    let _ = task.numbered();
    whole(alloc, task, Some(those))
}
