//! The laws that what is expanded over numbers stands for the task. Each is the contract of a
//! function without a body.

ghost use Rattle.p3_ground.specs.Expanded.{
  FactsDiffer,
  GoalStands,
  HardAtomsAreOwn,
  HardConstraintsStand,
  OfExpanded,
  SoftAtomsAreOwn,
  SoftConstraintsStand,
  StepsAreFew,
  StepsStand,
  WhatIsPutTogetherStands,
};

/// No two ground atoms say the same.
pub fn expanded_atoms_differ()
    ensures { OfExpanded FactsDiffer }
{}

/// The constraints, the preferences and the goal of a task that are expanded stand for those of the
/// task, entry by entry.
pub fn expanded_constraints_stand()
    ensures hard { OfExpanded HardConstraintsStand }
    ensures soft { OfExpanded SoftConstraintsStand }
    ensures goal { OfExpanded GoalStands }
{}

/// The atoms of the constraints and preferences of a task that are expanded are those that their
/// formulas mention.
pub fn expanded_constraints_have_own_atoms()
    ensures hard { OfExpanded HardAtomsAreOwn }
    ensures soft { OfExpanded SoftAtomsAreOwn }
{}

/// A ground step that is expanded is made of its step, and has few changes.
pub fn expanded_steps_stand()
    ensures made { OfExpanded StepsStand }
    ensures few { OfExpanded StepsAreFew }
{}

/// A ground task that is put together of what was expanded stands for the task, with few changes and
/// with atoms of its constraints that are their own.
pub fn what_is_put_together_stands()
    ensures { OfExpanded WhatIsPutTogetherStands }
{}
