//! A ground task of all steps that may begin, or of those of some numbers.

ghost use Rattle.std.specs.Prelude.{◌≡◌, ◌≤◌, ◌^◌, ℕ, List, [], Option, IfOk, IfSome};
ghost use Rattle.std.specs.List.Sorted.{IsStrictlyIncreasing};
ghost use Rattle.std.specs.Option.{option_copied};
ghost use Rattle.std.specs.Result.{MatchResult};
ghost use Rattle.p3_task.specs.Costs.{cost_places as places_of_costs, initial_cost as cost_at_start};
ghost use Rattle.p3_task.specs.Offences.{WellFormed};
ghost use Rattle.p3_expansion.specs.Statics.{AreStatics, start_bits};
ghost use Rattle.p3_steps.specs.Steps.{MakesSteps};
ghost use Rattle.p3_ground.specs.Planned.{wanted_steps};
ghost use Rattle.p3_ground.specs.Whole.{ArePartsOf, IsWhole, HasFewSteps};

use crate::parts::ExpandedParts;
use p3_base::{List, NoMemory, TooLarge};
use p3_expansion::{
    Atoms, Statics, Work, hard_constraints, hard_form, initial_bits, soft_constraints,
};
use p3_formula::{Bits, GroundStep, GroundTask};
use p3_numbers::NumberedTask;
use p3_steps::{EffectCosts, steps, steps_among};
use p3_types::Checked;
use std::alloc::Global;

/// The steps that may begin: all, or those of the wanted numbers.
fn steps_of(
    task: &NumberedTask,
    statics: &Statics,
    costs: &EffectCosts,
    work: &mut Work,
    wanted: Option<&[u32]>,
) -> Result<List<GroundStep>, NoMemory>
    requires few { HasFewSteps task.now }
    requires values { costs.now.values.now ≡ task.now.values }
    requires rising { IfSome wanted (λ those. IsStrictlyIncreasing those.now) }
    ensures { IfOk result (MakesSteps task.now statics.now costs.now.places
        (wanted_steps task.now statics.now (option_copied wanted.entry)) work.old work.new) }
{
    match wanted {
        None => steps(task, statics, costs, work),
        Some(those) => steps_among(task, statics, costs, work, those),
    }
}

/// What is expanded of a task, the steps first.
fn parts_of(
    task: &Checked,
    statics: &Statics,
    costs: &EffectCosts,
    work: &mut Work,
    wanted: Option<&[u32]>,
) -> Result<ExpandedParts, NoMemory>
    requires well { WellFormed task.now.task }
    requires few { HasFewSteps task.now.numbered }
    requires statics { AreStatics task.now.numbered statics.now }
    requires values { costs.now.values.now ≡ task.now.numbered.values }
    requires none { work.old.atoms ≡ [] }
    requires rising { IfSome wanted (λ those. IsStrictlyIncreasing those.now) }
    ensures { IfOk result (ArePartsOf task.now.task task.now.numbered statics.now
        costs.now.places work.new.atoms (option_copied wanted.entry)) }
{
    let numbered = task.numbered();
    let steps = steps_of(numbered, statics, costs, work, wanted)?;
    let goal = hard_form(&numbered.numbers, statics, work, &[], &numbered.goal)?;
    let hard = hard_constraints(numbered, statics, work)?;
    let soft = soft_constraints(numbered, statics, work)?;
    let atoms = work.atoms.len();
    Ok(ExpandedParts {
        atoms,
        steps,
        goal,
        hard,
        soft,
    })
}

/// How a task starts: its initial state and its total cost then.
#[derive(Drop)]
struct GroundStart {
    initial: Bits,
    cost: u64,
}

/// The total cost before the first step, in units of the last decimal place of the task's costs.
///
/// # Errors
///
/// `TooLarge` exactly from 2 ^ 64 units on; from 10^18 units on a task is refused with its metric.
fn initial_cost(task: &Checked) -> Result<u64, TooLarge>
    ensures { MatchResult result (λ cost. cost ≡ cost_at_start task.now.task)
        (λ _. 2 ^ 64 ≤ cost_at_start task.now.task) }
{
    match u64::try_from(task.initial_cost()) {
        Ok(cost) => Ok(cost),
        Err(_) => Err(TooLarge),
    }
}

/// How the task starts, over these atoms.
fn start_of(
    alloc: Global,
    task: &Checked,
    statics: &Statics,
    atoms: &Atoms,
) -> Result<GroundStart, NoMemory>
    ensures initial { IfOk result (λ start. start.initial ≡ start_bits statics.now atoms.now) }
    ensures cost { IfOk result (λ start. start.cost ≡ cost_at_start task.now.task) }
{
    let cost = initial_cost(task)?;
    let initial = initial_bits(alloc, statics, atoms)?;
    Ok(GroundStart { initial, cost })
}

/// The parts with the initial state and the numbers of the task.
fn together(
    task: &Checked,
    statics: &Statics,
    costs: &EffectCosts,
    atoms: &Atoms,
    parts: ExpandedParts,
    start: GroundStart,
) -> GroundTask
    requires few { HasFewSteps task.now.numbered }
    requires places { costs.now.places ≡ places_of_costs task.now.task }
    requires initial { start.initial ≡ start_bits statics.now atoms.now }
    requires cost { start.cost ≡ cost_at_start task.now.task }
    ensures { (wanted : Option (List ℕ)) → ArePartsOf task.now.task task.now.numbered
        statics.now costs.now.places atoms.now wanted parts
        → IsWhole task.now.task task.now.numbered wanted result }
{
    GroundTask {
        atoms: parts.atoms,
        initial: start.initial,
        initial_cost: start.cost,
        step_count: task.step_count(),
        steps: parts.steps,
        goal: parts.goal,
        hard: parts.hard,
        soft: parts.soft,
        names: task.names(),
    }
}

/// The ground task of the wanted steps, by what no step changes and what effects cost.
fn whole_by(
    alloc: Global,
    task: &Checked,
    statics: &Statics,
    costs: &EffectCosts,
    wanted: Option<&[u32]>,
) -> Result<GroundTask, NoMemory>
    requires well { WellFormed task.now.task }
    requires few { HasFewSteps task.now.numbered }
    requires statics { AreStatics task.now.numbered statics.now }
    requires values { costs.now.values.now ≡ task.now.numbered.values }
    requires places { costs.now.places ≡ places_of_costs task.now.task }
    requires rising { IfSome wanted (λ those. IsStrictlyIncreasing those.now) }
    ensures { IfOk result (IsWhole task.now.task task.now.numbered (option_copied wanted.entry)) }
{
    let mut work = Work::new(alloc);
    let parts = parts_of(task, statics, costs, &mut work, wanted)?;
    let start = start_of(alloc, task, statics, &work.atoms)?;
    Ok(together(task, statics, costs, &work.atoms, parts, start))
}

/// The ground task of the steps of a task that may begin: of all, or of those of the wanted numbers.
pub(crate) fn whole(
    alloc: Global,
    task: &Checked,
    wanted: Option<&[u32]>,
) -> Result<GroundTask, NoMemory>
    requires well { WellFormed task.now.task }
    requires few { HasFewSteps task.now.numbered }
    requires rising { IfSome wanted (λ those. IsStrictlyIncreasing those.now) }
    ensures { IfOk result (IsWhole task.now.task task.now.numbered (option_copied wanted.entry)) }
{
    let numbered = task.numbered();
    let statics = Statics::of(alloc, numbered)?;
    let costs = EffectCosts::of(alloc, numbered.values.items(), task.cost_places())?;
    let whole = whole_by(alloc, task, &statics, &costs, wanted)?;
    Ok(whole)
}
