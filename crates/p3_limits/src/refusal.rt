//! The first limit that a task passes.

ghost use Rattle.std.specs.Prelude.{◌≡◌, IfOk, OnErr};
ghost use Rattle.std.specs.Result.{MatchResult};
ghost use Rattle.p3_numbers.specs.Tasks.{IsNumberedTask};
ghost use Rattle.p3_task.specs.Offences.{WellFormed};
ghost use Rattle.p3_task.specs.Refusals.Counts.{size_refusals};
ghost use Rattle.p3_task.specs.Refusals.Places.{first_some};
ghost use Rattle.p3_limits.specs.Excess.{IsAtLongWord, numbered_refusals};

use crate::large::{large_in_domain, large_in_problem};
use crate::many::too_many_preferences;
use crate::step_counts::too_many_steps;
use p3_base::{NoMemory, Refusal, Side};
use p3_numbers::NumberedTask;
use p3_task::Task;

/// The first refusal of the trees side by side.
pub(crate) fn numbered_refusal(
    side: Side,
    task: &Task,
    numbered: &NumberedTask,
) -> Result<Option<Refusal>, NoMemory>
    ensures found { IfOk result (λ found. found ≡
        first_some (numbered_refusals side task.now numbered.now)) }
    ensures long { OnErr result
        (IsAtLongWord (first_some (numbered_refusals side task.now numbered.now))) }
{
    let (actions, numbers) = (task.domain.actions.items(), &numbered.numbers);
    match too_many_steps(side, numbers, actions, numbered.actions.items())? {
        Some(found) => return Ok(Some(found)),
        None => {}
    }
    match large_in_domain(side, task, numbered) {
        Some(found) => return Ok(Some(found)),
        None => {}
    }
    match large_in_problem(side, task, numbered) {
        Some(found) => Ok(Some(found)),
        None => Ok(too_many_preferences(side, numbered)),
    }
}

/// The first limit on sizes that a well-formed task passes: too many steps, a part that is too
/// large once it is expanded, in the domain and then in the problem, too many instances of
/// preferences. It takes no memory. Want of memory is answered only where the name at fault has
/// 2 ^ 32 bytes or more.
#[tactic(auto, using(crate::proofs::ExcessLaws::first_excess))]
pub fn size_refusal(
    side: Side,
    task: &Task,
    numbered: &NumberedTask,
) -> Result<Option<Refusal>, NoMemory>
    requires well_formed { WellFormed task.now }
    requires numbered { IsNumberedTask task.now numbered.now }
    ensures { MatchResult result (λ found. found ≡ first_some (size_refusals side task.now))
        (λ _. IsAtLongWord (first_some (size_refusals side task.now))) }
{
    numbered_refusal(side, task, numbered)
}
