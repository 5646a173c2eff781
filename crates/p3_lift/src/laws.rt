//! The laws of lifting. Each is the contract of a function without a body.

ghost use Rattle.std.specs.Prelude.{◌≡◌, ◌≢◌};
ghost use Rattle.p3_task.specs.Faithful.{Faithful};
ghost use Rattle.p3_task.specs.Plans.{Plan};
ghost use Rattle.p3_task.specs.declared.task.Task.{Task};
ghost use Rattle.p3_lift.specs.Lifting.{IsLiftFail, IsLifted};
ghost use Rattle.p3_lift.specs.Told.{told_by};
ghost use Rattle.p3_lift.specs.declared.answers.Differ.{Differ};
ghost use Rattle.p3_lift.specs.declared.answers.LiftFail.{LiftFail};
ghost use Rattle.p3_lift.specs.declared.answers.LiftFail.TheVariants.{Mismatch, NoMemory};
ghost use Rattle.p3_lift.specs.declared.answers.Lifted.{Lifted};

/// Two answers that are right of the same tasks and plan tell the same, but for want of memory. So
/// which one comes follows from the tasks and the plan.
pub fn answers_exclude_each_other()
    ensures lifted { (T U : Task) (plan : Plan) (first second : Lifted)
        → IsLifted T U plan first → IsLifted T U plan second → first ≡ second }
    ensures either { (T U : Task) (plan : Plan) (lifted : Lifted) (fail : LiftFail)
        → IsLifted T U plan lifted → IsLiftFail T U plan fail → fail ≡ NoMemory }
    ensures failed { (T U : Task) (plan : Plan) (first second : LiftFail)
        → IsLiftFail T U plan first → IsLiftFail T U plan second
        → first ≢ NoMemory → second ≢ NoMemory → told_by first ≡ told_by second }
{}

/// No plan of a faithful translation has a mismatch.
pub fn faithful_tasks_never_mismatch()
    ensures { (T U : Task) → Faithful T U
        → (plan : Plan) (differ : Differ) → IsLiftFail T U plan (Mismatch differ) → ⊥ }
{}
