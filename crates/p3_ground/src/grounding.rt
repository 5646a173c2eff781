//! The laws of the whole of grounding. Each is the contract of a function without a body.

ghost use Rattle.p3_ground.specs.Expanded.{OfExpanded};
ghost use Rattle.p3_ground.specs.Grounding.{
  IsGroundingOverReached,
  LeavesOutThere,
  LeavesOutWhatNeverBegins,
};

/// Where each choice at which a precondition may begin has its step, only steps are left out that
/// begin in no reached state; and so it is at each single number.
pub fn only_what_never_begins_is_left_out()
    ensures all { LeavesOutWhatNeverBegins }
    ensures there { LeavesOutThere }
{}

/// A ground task that is put together of steps that may begin is a sparse one that stands for the
/// task, without the steps that cannot fit over the least closed set of atoms.
pub fn what_may_begin_over_the_least_set_is_a_grounding()
    ensures { OfExpanded IsGroundingOverReached }
{}
