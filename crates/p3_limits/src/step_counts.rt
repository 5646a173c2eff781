//! Too many steps.

ghost use Rattle.std.specs.Prelude.{◌≡◌, IfOk, OnErr};
ghost use Rattle.p3_task.specs.Sides.{step_count_limit};
ghost use Rattle.p3_limits.specs.Excess.{IsAtLongWord, refused_step};

use crate::choices::choice_count;
use crate::refused_words::{domain_role, refusal_at_name};
use p3_base::{Code, NoMemory, Refusal, Side};
use p3_numbers::{NumberedAction, Numbers};
use p3_task::Action;

/// How many ground steps a task may have.
const STEP_COUNT_LIMIT: u64 = 20_000_000;

/// At the name of the action with which the steps are too many.
pub(crate) fn too_many_steps(
    side: Side,
    numbers: &Numbers,
    actions: &[Action],
    numbered: &[NumberedAction],
) -> Result<Option<Refusal>, NoMemory>
    ensures found { IfOk result (λ found. found ≡
        refused_step numbers.now side step_count_limit actions.now numbered.now) }
    ensures long { OnErr result (IsAtLongWord
        (refused_step numbers.now side step_count_limit actions.now numbered.now)) }
{
    let mut left = STEP_COUNT_LIMIT;
    for (place, action) in actions.iter().enumerate() {
        let Some(one) = numbered.get(place) else {
            return Ok(None);
        };
        let count = choice_count(numbers, one.ranges.items());
        if left < count {
            let role = domain_role(side);
            let refusal = refusal_at_name(Code::TooManyInstances, role, &action.name)?;
            return Ok(Some(refusal));
        }
        left -= count;
    }
    Ok(None)
}
