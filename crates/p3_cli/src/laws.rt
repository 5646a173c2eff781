//! The laws of the whole: what is compiled and written for a task. Each is the contract of a
//! function without a body.

ghost use Rattle.std.specs.Prelude.{Contains, IsTrue, List, ℕ};
ghost use Rattle.p3_task.specs.Faithful.{Faithful};
ghost use Rattle.p3_task.specs.Offences.{WellFormed};
ghost use Rattle.p3_task.specs.declared.task.Task.{Task};
ghost use Rattle.p3_formula.specs.Targets.{Compiled, IsSized, IsWellNamed, Translates};
ghost use Rattle.p3_formula.specs.declared.target.Target.{Target};
ghost use Rattle.p3_formula.specs.declared.target.TargetAction.{TargetAction};
ghost use Rattle.p3_formula.specs.declared.target.Weights.{Weights};
ghost use Rattle.p3_formula.specs.declared.task.GroundTask.{GroundTask};
ghost use Rattle.p3_compile.specs.Lean.{IsLean};
ghost use Rattle.p3_flat.specs.Conditions.{is_too_wide};
ghost use Rattle.p3_ground.specs.Sparse.{IsGroundingOf};
ghost use Rattle.p3_ground.specs.StandsFor.{StandsFor};
ghost use Rattle.p3_metric.specs.Weighed.{HasWeights, IsLinearMetric};
ghost use Rattle.p3_writer.specs.TaskOf.{task_of};
ghost use Rattle.p3_writer.specs.Texts.{IsDomainTextOf, IsProblemTextOf};
ghost use Rattle.p3_cli.specs.Flattening.{IsOfWideStep};
ghost use Rattle.p3_cli.specs.WrittenText.{HasFaithfulText};

/// What is compiled for a task is a faithful translation of it.
pub fn compiled_tasks_are_faithful()
    ensures { (T : Task) (G : GroundTask) (w : Weights) (X : Target) → WellFormed T
        → StandsFor T G → IsLinearMetric T → HasWeights T w → Compiled G w X
        → Faithful T (task_of X) }
{}

/// A target whose plans are those of a task's ground task translates the task, whatever its names
/// are, as long as its texts may have them.
pub fn translating_targets_are_faithful()
    ensures { (T : Task) (G : GroundTask) (w : Weights) (X : Target) → WellFormed T
        → StandsFor T G → IsLinearMetric T → HasWeights T w → IsSized X → IsWellNamed X
        → Translates G w X → Faithful T (task_of X) }
{}

/// Two texts of the task that a target is are those of a faithful translation where that task is
/// one: where their parts stand in them has no meaning.
pub fn written_targets_are_faithful_texts()
    ensures { (T : Task) (X : Target) (domain problem : List ℕ) → Faithful T (task_of X)
        → IsDomainTextOf domain (task_of X).domain → IsProblemTextOf problem (task_of X).problem
        → HasFaithfulText domain problem T }
{}

/// An action with too many conditions is one of a step that may have too many: it is named for the
/// number of that step.
pub fn wide_actions_have_wide_steps()
    ensures { (T : Task) (G : GroundTask) (w : Weights) (X : Target) → IsGroundingOf T G
        → IsLean G w X → (action : TargetAction) → Contains X.actions action
        → IsTrue (is_too_wide action) → IsOfWideStep T action.name }
{}
