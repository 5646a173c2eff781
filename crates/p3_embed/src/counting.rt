//! The steps as which actions count, by their names.

ghost use Rattle.std.specs.Prelude.{◌≡◌};
ghost use Rattle.p3_formula.specs.Targets.{lifted_number};

use p3_base::copied_step;
use p3_formula::GroundTask;

/// The step as which an action of that name counts, if it does.
pub(crate) fn counted_step(task: &GroundTask, name: &[u8]) -> Option<u32>
    ensures { result ≡ lifted_number task.now name.now }
{
    let step_count = task.step_count;
    match copied_step(name) {
        Some(number) if number < step_count => Some(number),
        _ => None,
    }
}
