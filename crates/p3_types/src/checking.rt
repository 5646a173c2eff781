//! From the two halves of a task to a checked task.

ghost use Rattle.std.specs.Prelude.{◌≡◌, IfOk, IfErr};
ghost use Rattle.p3_numbers.specs.Tasks.{IsNumberedTask};
ghost use Rattle.p3_task.specs.Offences.{WellFormed};
ghost use Rattle.p3_types.specs.Checks.{IsFailOf};
ghost use Rattle.p3_types.specs.Texts.{HasTexts};

use crate::parts::parts_of;
use crate::{CheckFail, Checked};
use p3_base::{NoMemory, Side};
use p3_numbers::NumberedTask;
use p3_resolve::{Resolved, resolve};
use p3_task::{Domain, Problem, Task};
use std::alloc::Global;

/// The well-formed task, checked, with its numbers.
fn checked(
    alloc: Global,
    side: Side,
    task: Task,
    numbered: NumberedTask,
) -> Result<Checked, NoMemory>
    requires well_formed { WellFormed task }
    requires numbered { IsNumberedTask task numbered }
    requires texts { HasTexts side task }
    ensures task { IfOk result (λ checked. checked.task ≡ task) }
    ensures side { IfOk result (λ checked. checked.side ≡ side) }
{
    parts_of(alloc, &task, numbered).map(|parts| Checked::of(task, side, parts))
}

/// The task of the two halves, checked; or the first offence where it is not well-formed.
pub fn check(
    alloc: Global,
    side: Side,
    domain: Domain,
    problem: Problem,
) -> Result<Checked, CheckFail>
    requires texts { HasTexts side (record { domain = domain; problem = problem }) }
    ensures task { IfOk result
        (λ checked. checked.task ≡ record { domain = domain; problem = problem }) }
    ensures side { IfOk result (λ checked. checked.side ≡ side) }
    ensures well_formed { IfOk result
        (λ _. WellFormed (record { domain = domain; problem = problem })) }
    ensures refused { IfErr result (IsFailOf side (record { domain = domain; problem = problem })) }
{
    let task = Task { domain, problem };
    match resolve(alloc, side, &task) {
        Ok(Resolved::Numbered(numbered)) => Ok(checked(alloc, side, task, numbered)?),
        Ok(Resolved::Refused(refusal)) => {
            drop(task);
            Err(CheckFail::Refused(refusal))
        }
        Err(error) => {
            drop(task);
            Err(CheckFail::from(error))
        }
    }
}
