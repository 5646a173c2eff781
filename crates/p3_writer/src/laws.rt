//! Laws of the definitions. Each is the contract of a function without a body.

ghost use Rattle.std.specs.List.{All};
ghost use Rattle.p3_task.specs.Unconditional.{IsUnconditional};
ghost use Rattle.p3_formula.specs.Targets.{IsSized, IsWellNamed};
ghost use Rattle.p3_formula.specs.Unconditional.{HasNoConditions};
ghost use Rattle.p3_formula.specs.declared.target.Target.{Target};
ghost use Rattle.p3_writer.specs.TaskOf.{task_of};
ghost use Rattle.p3_writer.specs.Written.{IsWritten};

/// The task that a target is is well-formed, plain, without variables and without a point in its
/// numbers; its valid plans and their costs are those of the target.
pub fn targets_are_their_tasks()
    ensures { (X : Target) → IsSized X → IsWellNamed X → IsWritten X }
{}

/// The task of a target without conditional changes has no conditional effect.
pub fn unconditional_targets_are_unconditional_tasks()
    ensures { (X : Target) → All HasNoConditions X.actions → IsUnconditional (task_of X) }
{}
