//! The step of a number.

ghost use Rattle.std.specs.Prelude.{◌≡◌, ◌==◌, ◌<◌, length, find, nat_lt, Some, None};
ghost use Rattle.std.specs.List.Sorted.{IsNonDecreasingBy};
ghost use Rattle.std.specs.Option.{option_copied};
ghost use Rattle.p3_run.specs.Steps.{IsByNumber, numbered_step};

use p3_formula::GroundStep;

/// The step of the number, found by halving, where it is kept.
pub fn step_at(steps: &[GroundStep], number: u32) -> Option<&GroundStep>
    requires { IsByNumber steps.now }
    ensures { option_copied result ≡ numbered_step steps.now number }
{
    let place = steps.partition_point(|step| step.number < number);
    if place < steps.len() && steps[place].number == number {
        Some(&steps[place])
    } else {
        None
    }
}
