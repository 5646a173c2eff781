//! The numbers of the steps as which written steps count, by their names.

ghost use Rattle.std.specs.Prelude.{◌≡◌, ◌<◌, ◌≤◌, IfSome, option_and_then, slice_get};
ghost use Rattle.p3_task.specs.Lifting.{lifted_step, steps};
ghost use Rattle.p3_task.specs.Limits.{step_count as count_of_steps};
ghost use Rattle.p3_task.specs.Sides.{step_count_limit};

use p3_base::copied_step;
use p3_task::Step;
use p3_types::Checked;

/// The number of the step as which a written step counts, if it does. It takes no memory.
pub(crate) fn counted_step(task: &Checked, written: &Step) -> Option<u32>
    requires few { count_of_steps task.now.task ≤ step_count_limit }
    ensures counts { lifted_step task.now.task written.now
        ≡ option_and_then (slice_get (steps task.now.task)) result }
    ensures within { IfSome result (λ number. number < count_of_steps task.now.task) }
{
    if !written.args.is_empty() {
        return None;
    }
    let step_count = task.step_count();
    match copied_step(written.action.bytes()) {
        Some(number) if number < step_count => Some(number),
        _ => None,
    }
}
