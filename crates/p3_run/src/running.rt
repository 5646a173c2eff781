//! A run of a ground task.

ghost use Rattle.std.specs.Prelude.{◌≡◌, ◌<◌, ◌^◌, pos, ◌+ℤ◌, IfOk, length, true};
ghost use Rattle.p3_formula.specs.GroundPlans.{ground_violated};
ghost use Rattle.std.specs.Int.RustNames.{unsigned_abs};
ghost use Rattle.std.specs.List.{All};
ghost use Rattle.p3_run.specs.Kept.{HasChangesUpTo};
ghost use Rattle.p3_run.specs.Runs as runs;
ghost use Rattle.p3_run.specs.Runs.{CanBeRun, most_steps};

use crate::answers::{Stepped, Verdict};
use crate::changing::{ChangeFound, change_state, follow};
use crate::done::DoneSteps;
use crate::finding::step_at;
use crate::groups::{Group, groups_of, tally_of};
use crate::pending::Pending;
use crate::preferring::count_step;
use crate::readers::{OperatorReader, readers_of};
use crate::tallies::Tally;
use p3_base::{Direction, List, NoMemory};
use p3_formula::{Bits, GroundStep, GroundTask, Weights, eval};
use std::alloc::Global;
use std::marker::Model;

/// A run of a ground task, one step after another. Contracts see the task, its weights and the
/// numbers of the steps done.
#[derive(Drop)]
pub struct GroundRun<'a> {
    task: &'a GroundTask,
    weights: &'a Weights,
    // For each atom the operators that read it.
    readers: Vec<List<OperatorReader>>,
    // The atoms of a step whose readers have still to follow.
    pending: Pending,
    // Room for what the changes of a step find.
    found: Vec<ChangeFound>,
    // The numbers of the steps done.
    done: DoneSteps,
    // The state that they lead to.
    state: Bits,
    // The operators of the hard constraints, and behind them those of each instance.
    groups: Vec<Group>,
    // The instances that are not satisfied.
    soft: Tally,
    // The preferences of steps that were false, with the weighted costs of the steps.
    prefs: Tally,
    // What the steps cost.
    cost: u128,
}

impl<'a> Model for GroundRun<'a> {
    ghost use Rattle.p3_run.specs.Runs.{Ran};

    ghost Value = { Ran };

    ghost use Rattle.p3_formula.specs.contracts.form.Form as form;
    ghost use Rattle.std.specs.Coded.{codes};

    ghost coded = { Prim.hlevel (codes, form.the_row.coded) };

    ghost use Rattle.p3_run.specs.Kept.{IsRunOf};

    ghost view = { λ run. record {
      task = run.task.now;
      weights = run.weights.now;
      plan = run.done;
    } };

    ghost invariant = { λ run. IsRunOf run.task.now run.weights.now run.readers.items
        run.found.items run.done run.state run.groups.items
        run.soft run.prefs run.cost };
}

impl<'a> GroundRun<'a> {
    /// The run of no step. It takes all memory of a run.
    pub fn open(
        alloc: Global,
        task: &'a GroundTask,
        weights: &'a Weights,
    ) -> Result<GroundRun<'a>, NoMemory>
        requires { CanBeRun task.now weights.now }
        ensures { IfOk result (λ run. run ≡ runs.begun task.now weights.now) }
    {
        let by_name = bounded(weights.by_name.items());
        let readers = readers_of(alloc, task)?;
        let pending = Pending::of(alloc, task.atoms)?;
        let found = room_for(alloc, task.steps.items())?;
        let done = DoneSteps::new(alloc)?;
        let state = task.initial.copied(alloc)?;
        let groups = groups_of(alloc, task)?;
        let soft = tally_of(alloc, by_name, groups.as_slice())?;
        let prefs = Tally::new(alloc, by_name.len())?;
        Ok(GroundRun {
            task,
            weights,
            readers,
            pending,
            found,
            done,
            state,
            groups,
            soft,
            prefs,
            cost: 0,
        })
    }

    /// Does the step of that number where it fits. Else nothing changes.
    pub fn step(&mut self, number: u32) -> Stepped
        requires { length self.old.plan < most_steps }
        ensures answer { result ≡ runs.stepped_by (runs.ground_misfit self.old.task
            (runs.ground_state self.old.task self.old.plan) number) }
        ensures run { self.new ≡ runs.ran_after self.old number result }
    {
        let Some(step) = step_at(self.task.steps.items(), number) else {
            return Stepped::Precondition;
        };
        if !eval(&step.pre, &self.state) {
            return Stepped::Precondition;
        }
        let Some(cost) = step.cost else {
            return Stepped::NoCost;
        };
        count_step(&mut self.prefs, self.weights, step, cost, &self.state);
        let effects = step.effects.items();
        change_state(&mut self.state, &mut self.found, effects);
        follow(
            &mut self.groups,
            &mut self.soft,
            self.task,
            self.weights.by_name.items(),
            &self.state,
            self.readers.as_slice(),
            &mut self.pending,
            self.found.as_slice(),
            effects,
        );
        self.done.push(number);
        self.cost += cost;
        Stepped::Done
    }

    /// What the steps done are as a plan.
    pub fn finish(&self) -> Verdict
        ensures verdict { result ≡ runs.ground_verdict self.now.task self.now.plan }
        ensures fit { runs.ground_fit self.now.task self.now.plan ≡ true }
    {
        if !eval(&self.task.goal, &self.state) {
            return Verdict::Goal;
        }
        let hard = &self.groups[0];
        match hard.first_unmet() {
            Some(place) => Verdict::Unmet(place),
            None => Verdict::Valid,
        }
    }

    /// The state that they lead to.
    pub fn state(&self) -> &Bits
        ensures { result.now ≡ runs.ground_state self.now.task self.now.plan }
    {
        &self.state
    }

    /// How many steps are done.
    pub fn steps(&self) -> u32
        ensures steps { result ≡ length self.now.plan }
        ensures fit { runs.ground_fit self.now.task self.now.plan ≡ true }
    {
        self.done.len() as u32
    }

    /// The total cost at their end.
    pub fn total_cost(&self) -> i128
        ensures { result ≡ pos (runs.ground_total self.now.task self.now.plan) }
    {
        let first = initial_cost(self.task);
        (u128::from(first) + self.cost) as i128
    }

    /// The value of the metric.
    pub fn metric(&self) -> i128
        ensures { result ≡ runs.ground_metric self.now.task self.now.weights self.now.plan }
    {
        let more = self.soft.worth() + self.prefs.worth();
        value_of(self.weights.direction, self.weights.base, more)
    }

    /// How often the name of that number is violated.
    pub fn violations(&self, name: u32) -> u64
        requires { name < length self.now.weights.by_name }
        ensures { result ≡ ground_violated self.now.task self.now.plan name }
    {
        self.soft.count(name as usize) + self.prefs.count(name as usize)
    }
}

/// The weights, each of 64 bits.
fn bounded(by_name: &[u64]) -> &[u64]
    ensures are { result.now ≡ by_name.now }
    ensures small { All (λ weight. weight < 2 ^ 64) by_name.now }
{
    by_name
}

/// The total cost at the start.
fn initial_cost(task: &GroundTask) -> u64
    ensures { result ≡ task.now.initial_cost }
{
    task.initial_cost
}

/// The value whose loss is the base with so much more.
fn value_of(direction: Direction, base: i128, more: u128) -> i128
    requires base { unsigned_abs base < 2 ^ 126 }
    requires more { more < 2 ^ 126 }
    ensures { result ≡ runs.signed_by direction (base +ℤ pos more) }
{
    let loss = base + more as i128;
    match direction {
        Direction::Minimize => loss,
        Direction::Maximize => -loss,
    }
}

/// As many changes as a step has at most.
fn most_changes(steps: &[GroundStep]) -> usize
    ensures { All (HasChangesUpTo result) steps.now }
{
    let mut most: usize = 0;
    for step in steps {
        most = most.max(step.effects.len());
    }
    most
}

/// Room for what the changes of a step find.
fn room_for(alloc: Global, steps: &[GroundStep]) -> Result<Vec<ChangeFound>, NoMemory>
    ensures { IfOk result (λ found. All (HasChangesUpTo (length found.items)) steps.now) }
{
    let most = most_changes(steps);
    let none = ChangeFound {
        made: false,
        set: false,
    };
    Ok(vec![in alloc; none; most]?)
}
