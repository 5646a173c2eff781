//! Laws of flattened targets, as contracts of functions without a body.

ghost use Rattle.std.specs.Prelude.{◌≤◌, List, length, count_by};
ghost use Rattle.std.specs.List.{All};
ghost use Rattle.p3_formula.specs.Conditions.{HasTidyForms};
ghost use Rattle.p3_formula.specs.Targets.{IsNamed, IsSized, IsWellNamed, Translates};
ghost use Rattle.p3_formula.specs.Unconditional.{HasNoConditions, is_conditional};
ghost use Rattle.p3_formula.specs.declared.form.Change.{Change};
ghost use Rattle.p3_formula.specs.declared.target.Target.{Target};
ghost use Rattle.p3_formula.specs.declared.target.Weights.{Weights};
ghost use Rattle.p3_formula.specs.declared.task.GroundTask.{GroundTask};
ghost use Rattle.p3_flat.specs.Conditions.{conditions};
ghost use Rattle.p3_flat.specs.Flattened.{CanBeFlattened, IsFlattened};
ghost use Rattle.p3_flat.specs.Plans.{HasSamePlans};
ghost use Rattle.p3_flat.specs.Worked.{WorkedActions};

/// The names of a compiled target are such that it can be flattened.
pub fn compiled_targets_can_be_flattened()
    ensures { (X : Target) → IsNamed X → CanBeFlattened X }
{}

/// The plans of a target and of its flattening map one to one, action by action: each does what the
/// one does of which it is a copy, costs as much, and counts as the same step.
pub fn flattened_targets_have_the_same_plans()
    ensures { (X Y : Target) → CanBeFlattened X → IsFlattened X Y → HasSamePlans X Y }
{}

/// So a flattened target has the plans of the ground task that the target has, at the same costs
/// and as long.
pub fn flattened_targets_translate()
    ensures { (G : GroundTask) (weights : Weights) (X Y : Target) → CanBeFlattened X
        → Translates G weights X → IsFlattened X Y → Translates G weights Y }
{}

/// The names, atoms and forms of a flattened target are as its texts need them, and no change of it
/// has a condition.
pub fn flattened_targets_can_be_written()
    ensures sized { (X Y : Target) → IsSized X → IsFlattened X Y → IsSized Y }
    ensures named { (X Y : Target) → IsWellNamed X → IsFlattened X Y → IsWellNamed Y }
    ensures tidy { (X Y : Target) → HasTidyForms X → IsFlattened X Y → HasTidyForms Y }
    ensures unconditional { (X Y : Target) → IsFlattened X Y → All HasNoConditions Y.actions }
{}

/// Changes have no more different conditions than there are conditional ones among them.
pub fn different_conditions_are_few()
    ensures { (effects : List Change)
        → length (conditions effects) ≤ count_by is_conditional effects }
{}

/// What worked actions have as conditions, how their copies are called, and which of some is the
/// first one with too many conditions.
pub fn worked_actions()
    ensures { WorkedActions }
{}
