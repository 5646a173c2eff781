//! Plans of tasks, embedded in targets.

ghost use Rattle.std.specs.Prelude.{◌≡◌, ◌≤◌, ◌<◌, None, [], length, option_map, pos, slice_index_or, IfOk, IfErr, IfSome, OnOk};
ghost use Rattle.std.specs.List.{All};
ghost use Rattle.p3_task.specs.Validity.{first_fault};
ghost use Rattle.p3_formula.specs.Targets.{Compiled, action_names, target_cost};
ghost use Rattle.p3_ground.specs.PlansByNumber.{AreNumbers, names_of};
ghost use Rattle.p3_run.specs.Runs.{most_steps};
ghost use Rattle.p3_eval.specs.Judged.{HasItsStep, fault_in};
ghost use Rattle.p3_eval.specs.Steps.{AreOfPlan, OfSteps};
ghost use Rattle.p3_embed.specs.Plans.{IsEmbeddedPlan, IsFailOf, steps_at};

use crate::EmbedFail;
use crate::embedding::{Source, embed_numbers};
use p3_base::{List, Name, NoMemory};
use p3_eval::{PlanFault, Steps, Whole};
use p3_formula::Target;
use p3_task::{Plan, Step};
use std::alloc::Global;

/// A plan of a target, and what it costs.
#[derive(Debug, Drop)]
pub struct Embedded {
    /// Its steps, none of which has arguments.
    pub plan: Plan,
    /// What it costs.
    pub cost: i128,
}

/// The one valid plan of the target that lifts to the plan, and its cost. The target is what the
/// task is compiled to. Its time is about that of judging the plan, and of following it through the
/// target.
///
/// # Errors
///
/// The first fault of a plan that is not valid for the task. And want of memory.
pub fn embed(
    alloc: Global,
    task: &Whole,
    target: &Target,
    plan: &Plan,
) -> Result<Embedded, EmbedFail>
    requires compiled { Compiled task.now.ground_task task.now.weights target.now }
    requires room { length plan.now ≤ most_steps }
    ensures valid { OnOk result (first_fault task.now.checked.task plan.now ≡ None) }
    ensures plan { IfOk result (λ embedded. IsEmbeddedPlan
        task.now.checked.task task.now.ground_task target.now plan.now embedded.plan) }
    ensures cost { IfOk result (λ embedded. embedded.cost
        ≡ pos (target_cost target.now (names_of embedded.plan))) }
    ensures invalid { IfErr result (IsFailOf task.now.checked.task plan.now) }
{
    let steps = Steps::of_plan(alloc, task.checked(), plan.items())?;
    match embed_steps(alloc, task, target, &steps) {
        Ok(source) => Ok(Embedded {
            plan: plan_at(alloc, target, source.places.as_slice())?,
            cost: source.cost,
        }),
        Err(fail) => Err(fail),
    }
}

/// The same of a plan that is known by its steps, by the places of its actions in the target.
///
/// # Errors
///
/// The first fault of a plan that is not valid for the task. And want of memory.
pub fn embed_steps(
    alloc: Global,
    task: &Whole,
    target: &Target,
    steps: &Steps,
) -> Result<Source, EmbedFail>
    requires compiled { Compiled task.now.ground_task task.now.weights target.now }
    requires some { AreOfPlan task.now.checked.task steps.now }
    ensures valid { OnOk result (OfSteps task.now.checked.task steps.now
        (λ plan. first_fault task.now.checked.task plan ≡ None)) }
    ensures within { IfOk result (λ source.
        All (λ place. place < length target.now.actions) source.places.items) }
    ensures plan { IfOk result (λ source. OfSteps task.now.checked.task steps.now
        (λ plan. IsEmbeddedPlan task.now.checked.task task.now.ground_task target.now
        plan (steps_at target.now source.places.items))) }
    ensures cost { IfOk result (λ source. source.cost
        ≡ pos (target_cost target.now (names_of (steps_at target.now source.places.items)))) }
    ensures invalid { IfErr result (λ fail. OfSteps task.now.checked.task steps.now
        (λ plan. IsFailOf task.now.checked.task plan fail)) }
{
    if let Some(fault) = first_fault(alloc, task, steps)? {
        return Err(EmbedFail::Invalid(fault));
    }
    let source = embed_numbers(
        alloc,
        task.ground_task(),
        task.weights(),
        target,
        steps.numbers.as_slice(),
    )?;
    Ok(source)
}

/// The first fault of the plan of these steps, if it has one.
fn first_fault(alloc: Global, task: &Whole, steps: &Steps) -> Result<Option<PlanFault>, NoMemory>
    ensures told { IfOk result (λ found. OfSteps task.now.checked.task steps.now
        (λ plan. first_fault task.now.checked.task plan ≡ option_map fault_in found)) }
    ensures done { IfOk result (λ found. found ≡ None → OfSteps task.now.checked.task steps.now
        (λ plan. AreNumbers task.now.checked.task plan steps.now.numbers.items)) }
    ensures placed { IfOk result (λ found. IfSome found HasItsStep) }
{
    let mut run = task.begin(alloc)?;
    Ok(run.judge_steps(steps))
}

/// The steps of the actions at the places, without arguments.
fn plan_at(alloc: Global, target: &Target, places: &[usize]) -> Result<Plan, NoMemory>
    requires { All (λ place. place < length target.now.actions) places.now }
    ensures { IfOk result (λ plan. plan ≡ steps_at target.now places.now) }
{
    let mut plan = List::with_capacity(alloc, places.len())?;
    for place in places {
        let action = name_at(alloc, target, *place)?;
        let args = List::new(alloc);
        plan.push(Step { action, args })?;
    }
    Ok(plan)
}

/// The name of the action at the place.
fn name_at(alloc: Global, target: &Target, place: usize) -> Result<Name, NoMemory>
    requires { place < length target.now.actions }
    ensures { IfOk result (λ name. name ≡ slice_index_or (action_names target.now) place []) }
{
    Name::of(alloc, target.actions.items()[place].name.bytes())
}
