//! Too many instances of preferences.

ghost use Rattle.std.specs.Prelude.{◌≡◌, slice_get};
ghost use Rattle.std.specs.Option.{option_map};
ghost use Rattle.p3_base.specs.declared.refusal.Code.TheVariants.{TooManyPreferences};
ghost use Rattle.p3_task.specs.Refusals.Places as places;
ghost use Rattle.p3_limits.specs.Excess.{problem_offsets, refused_preference};

use crate::preferences::{constraint_count, constraint_offset, goal_offset, place_behind};
use crate::refused_words::{domain_role, problem_role, refusal_at};
use p3_base::{Code, Refusal, Role, Side};
use p3_numbers::NumberedTask;

/// How many instances of preferences a task may have.
const INSTANCE_LIMIT: u32 = 100_000;

/// The refusal at the word `preference` at the offset.
fn preference_at(role: Role, at: Option<u32>) -> Option<Refusal>
    ensures { result ≡
        option_map (λ at. places.refusal_at TooManyPreferences role at 10) at }
{
    match at {
        Some(at) => Some(refusal_at(Code::TooManyPreferences, role, at, 10)),
        None => None,
    }
}

/// The offset of the instance of the problem at a place: those of the constraints come before
/// those of the goal.
fn problem_offset(numbered: &NumberedTask, place: u32) -> Option<u32>
    ensures { result ≡ slice_get (problem_offsets numbered.now) place }
{
    let numbers = &numbered.numbers;
    let constraints = &numbered.problem_constraints;
    match place_behind(constraint_count(numbers, constraints), place) {
        None => constraint_offset(numbers, constraints, place),
        Some(left) => goal_offset(numbers, &numbered.goal, left),
    }
}

/// At the first instance behind as many as there may be.
pub(crate) fn too_many_preferences(side: Side, numbered: &NumberedTask) -> Option<Refusal>
    ensures { result ≡ refused_preference side numbered.now }
{
    let numbers = &numbered.numbers;
    let constraints = &numbered.domain_constraints;
    match place_behind(constraint_count(numbers, constraints), INSTANCE_LIMIT) {
        None => {
            let at = constraint_offset(numbers, constraints, INSTANCE_LIMIT);
            preference_at(domain_role(side), at)
        }
        Some(left) => preference_at(problem_role(side), problem_offset(numbered, left)),
    }
}
