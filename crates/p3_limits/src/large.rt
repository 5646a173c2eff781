//! Parts of a task that are too large once they are expanded.

ghost use Rattle.std.specs.Prelude.{◌≡◌};
ghost use Rattle.p3_task.specs.Sides.{InDomain, InProblem};
ghost use Rattle.p3_limits.specs.Excess as excess;

use crate::refused_words::{domain_role, problem_role, refusal_at, size_limit, with_least};
use crate::sizes::{constraint_size, effect_size, goal_size};
use p3_base::{Code, Refusal, Side};
use p3_numbers::{NumberedAction, NumberedTask, Numbers};
use p3_task::{Action, Task};

/// What was found, and the refusal too where the size passes the limit.
fn noted(limit: u64, size: u64, refusal: Refusal, found: Option<Refusal>) -> Option<Refusal>
    ensures { result ≡ excess.noted limit size refusal found }
{
    if limit < size {
        with_least(found, refusal)
    } else {
        found
    }
}

/// What was found, and what an action adds.
fn noted_action(
    side: Side,
    numbers: &Numbers,
    action: &Action,
    numbered: &NumberedAction,
    found: Option<Refusal>,
) -> Option<Refusal>
    ensures { result ≡
        excess.noted_action numbers.now side action.now numbered.now found }
{
    let (limit, role) = (size_limit(side), domain_role(side));
    let precondition = refusal_at(Code::FormulaTooLarge, role, action.pre.at, 13);
    let found = noted(
        limit,
        goal_size(numbers, &numbered.pre),
        precondition,
        found,
    );
    let effect = refusal_at(Code::FormulaTooLarge, role, action.effect.at, 7);
    noted(limit, effect_size(numbers, &numbered.effect), effect, found)
}

/// What was found, and what the actions add.
fn noted_actions(
    side: Side,
    numbers: &Numbers,
    actions: &[Action],
    numbered: &[NumberedAction],
    start: Option<Refusal>,
) -> Option<Refusal>
    ensures { result ≡
        excess.noted_actions numbers.now side actions.now numbered.now start }
{
    let mut found = start;
    for (place, action) in actions.iter().enumerate() {
        let Some(one) = numbered.get(place) else {
            return found;
        };
        found = noted_action(side, numbers, action, one, found);
    }
    found
}

/// The keyword of least offset of the parts of the domain that are too large.
pub(crate) fn large_in_domain(side: Side, task: &Task, numbered: &NumberedTask) -> Option<Refusal>
    ensures { result ≡ excess.large_in_domain side task.now numbered.now }
{
    let at = task.domain.constraints.at;
    let refusal = refusal_at(Code::FormulaTooLarge, domain_role(side), at, 12);
    let size = constraint_size(&numbered.numbers, &numbered.domain_constraints);
    let found = noted(size_limit(side), size, refusal, None);
    let actions = task.domain.actions.items();
    noted_actions(
        side,
        &numbered.numbers,
        actions,
        numbered.actions.items(),
        found,
    )
}

/// The keyword of least offset of the parts of the problem that are too large.
pub(crate) fn large_in_problem(side: Side, task: &Task, numbered: &NumberedTask) -> Option<Refusal>
    ensures { result ≡ excess.large_in_problem side task.now numbered.now }
{
    let (limit, role) = (size_limit(side), problem_role(side));
    let constraints = refusal_at(Code::FormulaTooLarge, role, task.problem.constraints.at, 12);
    let size = constraint_size(&numbered.numbers, &numbered.problem_constraints);
    let found = noted(limit, size, constraints, None);
    let goal = refusal_at(Code::FormulaTooLarge, role, task.problem.goal.at, 5);
    noted(
        limit,
        goal_size(&numbered.numbers, &numbered.goal),
        goal,
        found,
    )
}
