//! The laws of steps at choices of objects. Each is the contract of a function without a body.

ghost use Rattle.p3_ground.specs.Expanded.{StepsAreAtChoices};
ghost use Rattle.p3_ground.specs.StepParts.{
  CostsAlike,
  NeverBegins,
  NumbersAreChoices,
  OfSteps,
  WantsWhatIsPossible,
};

/// The steps of a task are its actions at the choices of objects for their parameters, with rising
/// numbers.
pub fn steps_are_at_choices()
    ensures at { StepsAreAtChoices }
    ensures all { NumbersAreChoices }
{}

/// A step whose precondition may not begin begins in no reached state.
pub fn what_may_not_begin_never_begins()
    ensures { OfSteps NeverBegins }
{}

/// Where the precondition of a step may begin, each atom that `and` alone joins in it is possible.
pub fn steps_want_what_is_possible()
    ensures { OfSteps WantsWhatIsPossible }
{}

/// A step costs by numbers what it costs by names.
pub fn steps_cost_alike_by_number()
    ensures { OfSteps CostsAlike }
{}
