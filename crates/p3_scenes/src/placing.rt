//! The steps of a plan by number.

ghost use Rattle.std.specs.Prelude.{◌≡◌, ◌≤◌, ◌<◌, IfOk};
ghost use Rattle.std.specs.List.{All, AllZip};
ghost use Rattle.p3_task.specs.Limits.{step_count};
ghost use Rattle.p3_task.specs.Plans.{Plan};
ghost use Rattle.p3_task.specs.Sides.{step_count_limit};
ghost use Rattle.p3_task.specs.StepNumbers.{HasNumber};
ghost use Rattle.p3_task.specs.declared.task.Step.{Step};
ghost use Rattle.p3_reasons.specs.Visits.{IsPlaced};

use p3_base::{List, NoMemory};
use p3_reasons::PlacedStep;
use p3_types::Checked;
use std::alloc::Global;

/// The step of a number by numbers. A step that is found, by its words or its text, has a number,
/// also where it does not fit. It makes no name, and takes time for its arguments.
///
/// # Errors
///
/// Want of memory.
pub fn placed_step(alloc: Global, checked: &Checked, number: u32) -> Result<PlacedStep, NoMemory>
    requires few { step_count checked.now.task ≤ step_count_limit }
    requires within { number < step_count checked.now.task }
    ensures { IfOk result (λ placed. (step : Step) → HasNumber checked.now.task step number
        → IsPlaced checked.now.task checked.now.numbered step placed) }
{
    let (action, objects) = checked.placed(alloc, number)?;
    Ok(PlacedStep { action, objects })
}

/// The steps of a plan by numbers, in order.
///
/// # Errors
///
/// Want of memory.
pub fn placed_steps(
    alloc: Global,
    checked: &Checked,
    numbers: &[u32],
) -> Result<List<PlacedStep>, NoMemory>
    requires few { step_count checked.now.task ≤ step_count_limit }
    requires within { All (λ number. number < step_count checked.now.task) numbers.now }
    ensures { IfOk result (λ steps. (plan : Plan)
        → AllZip (HasNumber checked.now.task) plan numbers.now
        → AllZip (IsPlaced checked.now.task checked.now.numbered) plan steps) }
{
    let mut steps = List::new(alloc);
    for number in numbers {
        let step = placed_step(alloc, checked, *number)?;
        steps.push(step)?;
    }
    Ok(steps)
}
