//! The one valid plan of a target that lifts to a ground plan.

ghost use Rattle.std.specs.Prelude.{◌≡◌, ◌+◌, ◌<◌, length, pos, true, IfOk, OnOk};
ghost use Rattle.std.specs.List.{All};
ghost use Rattle.p3_formula.specs.Forms.{truth};
ghost use Rattle.p3_formula.specs.Targets.{target_cost};
ghost use Rattle.p3_embed.specs.Embeds.{CanEmbed, IsEmbedded, names_at};
ghost use Rattle.p3_embed.specs.Sought.{IsSought, IsWalkFor};

use crate::actions::{Actions, actions_of};
use crate::fitting::{fitting_copy, fitting_other};
use crate::walking::{EmbeddingWalk, begun, take};
use p3_base::NoMemory;
use p3_formula::{GroundTask, Target, Weights, eval};
use std::alloc::Global;

/// The one valid plan of a target that lifts to a plan, by the places of its actions.
#[derive(Debug, Drop)]
pub struct Source {
    /// The place of each of its actions in the target.
    pub places: Vec<usize>,
    /// What it costs.
    pub cost: i128,
}

/// The one valid plan of the target that lifts to the steps of these numbers, and its cost. Its time
/// is about that of following the plan: the copies of a step are found by halving, and an action
/// that counts as none is looked for behind the last one first.
pub(crate) fn embed_numbers(
    alloc: Global,
    task: &GroundTask,
    weights: &Weights,
    target: &Target,
    numbers: &[u32],
) -> Result<Source, NoMemory>
    requires { CanEmbed task.now weights.now target.now numbers.now }
    ensures within { IfOk result (λ source.
        All (λ place. place < length target.now.actions) source.places.items) }
    ensures plan { IfOk result (λ source.
        IsEmbedded task.now target.now numbers.now (names_at target.now source.places.items)) }
    ensures cost { IfOk result (λ source. source.cost
        ≡ pos (target_cost target.now (names_at target.now source.places.items))) }
{
    let actions = actions_of(alloc, task, target)?;
    let sought = Sought {
        task,
        weights,
        target,
        numbers,
        actions,
    };
    let mut walk = begun(alloc, target)?;
    for at in 0..numbers.len() {
        take_step(alloc, &sought, &mut walk, at)?;
    }
    take_rest(alloc, &sought, &mut walk)?;
    let cost = walk.cost as i128;
    Ok(Source {
        places: walk.places,
        cost,
    })
}

/// What a plan is looked for.
#[derive(Drop)]
struct Sought<'a> {
    /// The ground task.
    task: &'a GroundTask,
    /// Its weights.
    weights: &'a Weights,
    /// What it is compiled to.
    target: &'a Target,
    /// The steps of a valid plan of the ground task.
    numbers: &'a [u32],
    /// The actions of the target by the steps as which they count.
    actions: Actions,
}

/// Where the next action is looked for first: behind the last one.
fn behind_last(walk: &EmbeddingWalk) -> usize {
    match walk.places.last() {
        Some(place) => place.saturating_add(1),
        None => 0,
    }
}

/// Walks on until the next step is taken.
fn take_step(
    alloc: Global,
    sought: &Sought<'_>,
    walk: &mut EmbeddingWalk,
    at: usize,
) -> Result<(), NoMemory>
    requires sought { IsSought sought.now }
    requires walk { IsWalkFor sought.now at walk.old }
    requires next { at < length sought.now.numbers.now }
    ensures { OnOk result (IsWalkFor sought.now (at + 1) walk.new) }
{
    let target = sought.target;
    let number = sought.numbers[at];
    loop {
        if let Some(place) = fitting_copy(&sought.actions, target, &walk.state, number) {
            take(alloc, target, walk, place)?;
            return Ok(());
        }
        let from = behind_last(walk);
        let Some(place) = fitting_other(&sought.actions, target, &walk.state, from) else {
            unreachable!()
        };
        take(alloc, target, walk, place)?;
    }
}

/// Walks on until the goal is reached, behind the last step.
fn take_rest(alloc: Global, sought: &Sought<'_>, walk: &mut EmbeddingWalk) -> Result<(), NoMemory>
    requires sought { IsSought sought.now }
    requires walk { IsWalkFor sought.now (length sought.now.numbers.now) walk.old }
    ensures walk { OnOk result (IsWalkFor sought.now (length sought.now.numbers.now) walk.new) }
    ensures goal { OnOk result (truth walk.new.state sought.now.target.now.goal ≡ true) }
{
    let target = sought.target;
    while !eval(&target.goal, &walk.state) {
        let from = behind_last(walk);
        let Some(place) = fitting_other(&sought.actions, target, &walk.state, from) else {
            unreachable!()
        };
        take(alloc, target, walk, place)?;
    }
    Ok(())
}
