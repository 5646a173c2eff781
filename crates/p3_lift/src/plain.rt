//! Whether a task is plain: no constraint, no preference, no cost before the first step, and small
//! total costs are what its metric asks for. It takes no memory.

ghost use Rattle.std.specs.Prelude.{◌≡◌, ◌==◌, ◌&&◌};
ghost use Rattle.std.specs.List.{list_any};
ghost use Rattle.p3_task.specs.Lifting.{constrains, is_cost_metric, is_plain, prefers};
ghost use Rattle.p3_lift.specs.Plain.{has_plain_trees, some_prefers};

use p3_base::Direction;
use p3_eval::Grounded;
use p3_task::{Action, Constraint, Metric, Num, PreGoal, Task};

/// Whether an operator or a preference stands in the constraints.
#[cycle(constraint)]
#[tactic(auto, using(crate::proofs::PlainLaws::constraint_forms))]
fn constrains(constraint: &Constraint) -> bool
    ensures { result ≡ constrains constraint.now }
{
    match constraint {
        Constraint::Both(parts) => some_constrains(parts.items()),
        Constraint::Each(_, body) => constrains(body.get()),
        Constraint::Single(_) => true,
        Constraint::Soft { .. } => true,
    }
}

/// Whether one stands in some of them.
#[cycle(constraint)]
fn some_constrains(constraints: &[Constraint]) -> bool
    ensures { result ≡ list_any constrains constraints.now }
{
    for constraint in constraints {
        if constrains(constraint) {
            return true;
        }
    }
    false
}

/// Whether a preference stands in a precondition or goal.
#[cycle(goal)]
#[tactic(auto, using(crate::proofs::PlainLaws::goal_forms))]
fn prefers(goal: &PreGoal) -> bool
    ensures { result ≡ prefers goal.now }
{
    match goal {
        PreGoal::Plain(_) => false,
        PreGoal::Both(parts) => some_part_prefers(parts.items()),
        PreGoal::Each(_, body) => prefers(body.get()),
        PreGoal::Soft(_) => true,
    }
}

/// Whether one stands in some of them.
#[cycle(goal)]
fn some_part_prefers(goals: &[PreGoal]) -> bool
    ensures { result ≡ list_any prefers goals.now }
{
    for goal in goals {
        if prefers(goal) {
            return true;
        }
    }
    false
}

/// Whether a preference stands in the precondition of some action.
fn some_prefers(actions: &[Action]) -> bool
    ensures { result ≡ some_prefers actions.now }
{
    actions.iter().any(|action| prefers(&action.pre.body))
}

/// Whether small total costs are what the metric asks for.
fn is_cost_metric(metric: &Option<Metric>) -> bool
    ensures { result ≡ is_cost_metric metric.now }
{
    matches!(
        metric,
        Some(Metric {
            direction: Direction::Minimize,
            body: Num::TotalCost(_),
        })
    )
}

/// Whether no constraint and no preference stands in the task.
fn has_plain_trees(task: &Task) -> bool
    ensures { result ≡ has_plain_trees task.now }
{
    !constrains(&task.domain.constraints.body)
        && !constrains(&task.problem.constraints.body)
        && !some_prefers(task.domain.actions.items())
        && !prefers(&task.problem.goal.body)
}

/// Whether the task, with that cost before the first step, is plain.
fn is_plain_from(task: &Task, initial_cost: u64) -> bool
    ensures { result ≡ (has_plain_trees task.now && initial_cost == 0
        && is_cost_metric task.now.problem.metric) }
{
    has_plain_trees(task) && initial_cost == 0 && is_cost_metric(&task.problem.metric)
}

/// Whether the task is plain.
pub(crate) fn is_plain(grounded: &Grounded<'_>) -> bool
    ensures { result ≡ is_plain grounded.now.checked.now.task }
{
    let task = grounded.checked().task();
    let initial_cost = grounded.ground_task().initial_cost;
    is_plain_from(task, initial_cost)
}
