//! The law of the steps that are made of planned ones. It is the contract of a function without a
//! body.

ghost use Rattle.p3_ground.specs.Expanded.{OfExpanded};
ghost use Rattle.p3_ground.specs.Planned.{PlannedStepsAreAll, PlannedStepsReadNames, StepsAreCounted};

/// The ground steps that are made of the planned steps of a task, or of those of them that are
/// wanted, are all of these that may begin, each with its number.
pub fn planned_steps_are_all()
    ensures all { OfExpanded PlannedStepsAreAll }
    ensures names { PlannedStepsReadNames }
    ensures counted { StepsAreCounted }
{}
