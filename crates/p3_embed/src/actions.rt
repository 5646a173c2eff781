//! The actions of a target by the steps as which they count.

ghost use Rattle.std.specs.Prelude.{◌≡◌, ◌++◌, map, IfOk, OnOk};
ghost use Rattle.std.specs.List.{filter};
ghost use Rattle.p3_formula.specs.declared.target.TargetAction.{TargetAction};
ghost use Rattle.p3_formula.specs.Targets.{lifted_number};
ghost use Rattle.p3_embed.specs.Actions.{AreActionsOf, AreCopies, IsRising, counted_of, is_of};

use crate::counting::counted_step;
use p3_base::NoMemory;
use p3_formula::{GroundTask, Target, TargetAction};
use std::alloc::Global;

/// The action at a place counts as a step.
#[derive(Drop)]
pub(crate) struct Counted {
    /// The number of the step.
    pub(crate) number: u32,
    /// The place of the action.
    pub(crate) place: usize,
}

/// The actions of a target by the steps as which they count.
#[derive(Drop)]
pub(crate) struct Actions {
    /// The step as which each action counts, if it does.
    pub(crate) counts: Vec<Option<u32>>,
    /// The actions that count as steps, by rising number.
    pub(crate) copies: Vec<Counted>,
}

/// The actions of the target. Each name is read once.
pub(crate) fn actions_of(
    alloc: Global,
    task: &GroundTask,
    target: &Target,
) -> Result<Actions, NoMemory>
    ensures { IfOk result (AreActionsOf task.now target.now) }
{
    let counts = counts_of(alloc, task, target.actions.items())?;
    let copies = copies_of(alloc, counts.as_slice())?;
    Ok(Actions { counts, copies })
}

/// The step as which each action counts, if it does.
fn counts_of(
    alloc: Global,
    task: &GroundTask,
    actions: &[TargetAction],
) -> Result<Vec<Option<u32>>, NoMemory>
    ensures { IfOk result (λ counts. counts.items
        ≡ map (λ (action : TargetAction). lifted_number task.now action.name) actions.now) }
{
    let mut counts = Vec::with_capacity(alloc, actions.len())?;
    for action in actions {
        counts.push(counted_step(task, action.name.bytes()))?;
    }
    Ok(counts)
}

/// The actions that count as steps, by rising number.
fn copies_of(alloc: Global, counts: &[Option<u32>]) -> Result<Vec<Counted>, NoMemory>
    ensures { IfOk result (λ copies. AreCopies counts.now copies.items) }
{
    let mut copies = Vec::new(alloc);
    for place in 0..counts.len() {
        push_counted(&mut copies, place, counts[place])?;
    }
    copies.sort_by_key(|copy| copy.number)?;
    Ok(copies)
}

/// The action at the place stands behind the others, where it counts as a step.
fn push_counted(copies: &mut Vec<Counted>, place: usize, count: Option<u32>) -> Result<(), NoMemory>
    ensures { OnOk result (copies.new.items ≡ copies.old.items ++ counted_of place count) }
{
    if let Some(number) = count {
        copies.push(Counted { number, place })?;
    }
    Ok(())
}

/// Those of one step, found by halving.
pub(crate) fn copies_with(copies: &[Counted], number: u32) -> &[Counted]
    requires { IsRising copies.now }
    ensures { result.now ≡ filter (is_of number) copies.now }
{
    let start = copies.partition_point(|copy| copy.number < number);
    let rest = &copies[start..];
    let count = rest.partition_point(|copy| copy.number <= number);
    &rest[..count]
}
