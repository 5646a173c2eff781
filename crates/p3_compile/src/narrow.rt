//! The copies of a step with few weighted preferences.

ghost use Rattle.std.specs.Prelude.{◌<◌, ◌≤◌, ◌+◌, length, sum_by, IfOk, IsSome, IsTrue};
ghost use Rattle.std.specs.List.{All, list_all};
ghost use Rattle.p3_formula.specs.Conditions.{weight_bound, is_tidy_action};
ghost use Rattle.p3_formula.specs.Weighted as weigh;
ghost use Rattle.p3_compile.specs.Parts.{AreCopied, IsCopied, copied_actions};
ghost use Rattle.p3_compile.specs.Updated.{HasSimpler, IsSimpleCopy};
ghost use Rattle.p3_simulation.specs.Assembled.{IsSplit};

use crate::changes::simpler;
use crate::parts::{StepCopies, TargetCopy};
use p3_base::{List, NoMemory};
use p3_formula::{Effects, Form, GroundStep, Weights, effects_copied};
use p3_precprefs::{StepCopy, split_under};
use std::alloc::Global;

/// The copy as it is in the target, which takes the changes and simplifies them by what its
/// precondition fixes.
fn target_copy(alloc: Global, effects: Effects, copy: StepCopy) -> Result<TargetCopy, NoMemory>
    requires { IsSimpleCopy copy }
    ensures { IfOk result (IsCopied effects copy) }
{
    let StepCopy {
        violated,
        pre,
        cost,
    } = copy;
    let effects = simpler(alloc, &pre, effects)?;
    Ok(TargetCopy {
        violated,
        pre,
        effects,
        cost,
    })
}

/// One of several copies, each of which gets changes of its own.
fn other_copy(alloc: Global, effects: &Effects, copy: StepCopy) -> Result<TargetCopy, NoMemory>
    requires { IsSimpleCopy copy }
    ensures { IfOk result (IsCopied effects.now copy) }
{
    let effects = effects_copied(alloc, effects)?;
    target_copy(alloc, effects, copy)
}

/// The copies as they are in the target, each with changes of its own.
fn other_copies(
    alloc: Global,
    effects: &Effects,
    copies: Vec<StepCopy>,
) -> Result<Vec<TargetCopy>, NoMemory>
    requires { All IsSimpleCopy copies.items }
    ensures { IfOk result (λ made. AreCopied effects.now copies.items made.items) }
{
    let mut made = Vec::with_capacity(alloc, copies.len().saturating_add(1))?;
    for copy in copies {
        made.push(other_copy(alloc, effects, copy)?)?;
    }
    Ok(made)
}

/// The copies as they are in the target. The last one takes the changes.
fn target_copies(
    alloc: Global,
    effects: Effects,
    copies: List<StepCopy>,
) -> Result<List<TargetCopy>, NoMemory>
    requires { All IsSimpleCopy copies }
    ensures { IfOk result (AreCopied effects copies) }
{
    let mut others = copies.into_items();
    let Some(last) = others.pop() else {
        return Ok(List::new(alloc));
    };
    let mut made = other_copies(alloc, &effects, others)?;
    made.push(target_copy(alloc, effects, last)?)?;
    Ok(List::from(made))
}

/// The copies of a step with at most 8 weighted preferences, where this is their precondition in
/// the place of its own, and these are the changes that it makes in the target.
pub(crate) fn narrow_copies(
    alloc: Global,
    step: &GroundStep,
    pre: Form,
    effects: Effects,
    weights: &Weights,
    go: usize,
) -> Result<StepCopies, NoMemory>
    requires cost { IsSome step.now.cost }
    requires names { weigh.AreNamedBelow (length weights.now.by_name) step.now.prefs }
    requires few { weigh.width_of weights.now.by_name step.now ≤ 8 }
    requires room { weigh.weighted_cost weights.now step.now
        + sum_by (weigh.weight_of weights.now.by_name) step.now.prefs < weight_bound }
    ensures split { IfOk result (λ step_copies.
        IsSplit go weights.now step.now pre effects (copied_actions step_copies)) }
    ensures tidy { IfOk result (λ step_copies.
        IsTrue (list_all is_tidy_action (copied_actions step_copies))) }
    // Their changes are no more than those.
    ensures simpler { IfOk result (λ step_copies.
        All (HasSimpler effects) (copied_actions step_copies)) }
{
    let copies = split_under(alloc, pre, step, weights)?;
    let copies = target_copies(alloc, effects, copies)?;
    Ok(StepCopies {
        number: step.number,
        go,
        copies,
    })
}
