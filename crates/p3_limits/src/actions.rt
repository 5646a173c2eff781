//! The first action that costs too much or is too wide.

ghost use Rattle.std.specs.Prelude.{◌≡◌, ◌<◌, ◌^◌, length};
ghost use Rattle.p3_task.specs.Refusals.Counts.{action_refusals};
ghost use Rattle.p3_task.specs.Refusals.Places as places;
ghost use Rattle.p3_task.specs.Sides.{InDomain, role_of};
ghost use Rattle.p3_limits.specs.Bounds as bounds;
ghost use Rattle.p3_limits.specs.Bounds.{HaveShortNames};
ghost use Rattle.p3_limits.specs.Weights.{HasWeights};

use crate::choices::{cut_product, cut_sum};
use crate::goals::shares;
use crate::increases::greatest_cost;
use crate::measure::Measure;
use crate::refused_words::{domain_role, refusal_at};
use p3_base::{Code, Refusal, Role};
use p3_formula::Weights;
use p3_numbers::NumberedAction;
use p3_task::{Action, Ref};
use p3_types::Checked;

/// The refusal at a name of which 32 bits count the bytes.
fn refusal_at_short_name(code: Code, role: Role, name: &Ref) -> Refusal
    requires { length name.now.name < 2 ^ 32 }
    ensures { result ≡ places.refusal_at_word code role name.now }
{
    refusal_at(code, role, name.at, name.name.bytes().len() as u32)
}

/// What is measured of the action, or `u64::MAX` where it is more.
fn measured(task: &Checked, weights: &Weights, measure: Measure, action: &NumberedAction) -> u64
    ensures { result ≡ bounds.measured
        task.now.task task.now.numbered.numbers weights.now measure action.now }
{
    let by_name = weights.by_name.items();
    let preferences = shares(measure, by_name, &task.numbered().numbers, &action.pre);
    match measure {
        Measure::Cost => {
            let costs = cut_product(weights.total_cost, greatest_cost(task, &action.effect));
            cut_sum(costs, preferences)
        }
        Measure::Width => preferences,
    }
}

/// At the name of the first of the actions of which more is measured than is accepted.
fn first_past(
    task: &Checked,
    weights: &Weights,
    measure: Measure,
    actions: &[Action],
    numbered: &[NumberedAction],
) -> Option<Refusal>
    requires { HaveShortNames actions.now }
    ensures { result ≡ bounds.first_past
        task.now.task task.now.numbered.numbers weights.now measure
        (role_of task.now.side InDomain) actions.now numbered.now }
{
    let role = domain_role(task.side());
    for (place, action) in actions.iter().enumerate() {
        let Some(one) = numbered.get(place) else {
            return None;
        };
        if measure.limit() < measured(task, weights, measure, one) {
            return Some(refusal_at_short_name(measure.code(), role, &action.name));
        }
    }
    None
}

/// The refusal of the first action whose cost bound is 2 ^ 62 or more, and where there is none, of
/// the first with a split width above 200; each is refused at its name. It takes no memory.
///
/// The cost bound is the greatest that a step of the action can add to the loss: the weighted sum
/// of its increases, where a function's value counts as the greatest that the initial state gives
/// to it, and the weights of all preferences of its precondition. The split width is how many of
/// these preferences have a weight above 0. An action without steps is counted too.
pub fn bounds(task: &Checked, weights: &Weights) -> Option<Refusal>
    requires weights { HasWeights task.now.task weights.now }
    ensures { result ≡ places.first_some (action_refusals task.now.side task.now.task) }
{
    let actions = task.task().domain.actions.items();
    let numbered = task.numbered().actions.items();
    match first_past(task, weights, Measure::Cost, actions, numbered) {
        Some(refusal) => Some(refusal),
        None => first_past(task, weights, Measure::Width, actions, numbered),
    }
}
