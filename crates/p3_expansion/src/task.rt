//! The constraints of a whole task as ground operators and instances of preferences.

ghost use Rattle.std.specs.Prelude.{IfOk};
ghost use Rattle.p3_expansion.specs.TaskConstraints.{MakesHard, MakesSoft};

use crate::constraint::push_operators;
use crate::instance::{push_goal_instances, push_instances};
use crate::{Statics, Work};
use p3_base::{List, NoMemory};
use p3_formula::{GroundModal, GroundSoft};
use p3_numbers::NumberedTask;

/// The hard constraints of a task: those of the domain and then those of the problem.
pub fn hard_constraints(
    task: &NumberedTask,
    statics: &Statics,
    work: &mut Work,
) -> Result<List<GroundModal>, NoMemory>
    ensures { IfOk result (MakesHard task.now statics.now work.old work.new) }
{
    let numbers = &task.numbers;
    let (domain, problem) = (&task.domain_constraints, &task.problem_constraints);
    let mut made = List::new(work.alloc);
    push_operators(numbers, statics, work, &[], false, domain, &mut made)?;
    push_operators(numbers, statics, work, &[], false, problem, &mut made)?;
    Ok(made)
}

/// The preferences over the visited states: those of the domain, and then those of the problem's
/// constraints and of its goal.
pub fn soft_constraints(
    task: &NumberedTask,
    statics: &Statics,
    work: &mut Work,
) -> Result<List<GroundSoft>, NoMemory>
    ensures { IfOk result (MakesSoft task.now statics.now work.old work.new) }
{
    let numbers = &task.numbers;
    let (domain, problem) = (&task.domain_constraints, &task.problem_constraints);
    let mut made = List::new(work.alloc);
    push_instances(numbers, statics, work, &[], domain, &mut made)?;
    push_instances(numbers, statics, work, &[], problem, &mut made)?;
    push_goal_instances(numbers, statics, work, &[], &task.goal, &mut made)?;
    Ok(made)
}
