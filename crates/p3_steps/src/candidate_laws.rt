//! Laws of what may be so. Each is the contract of a function without a body.

ghost use Rattle.p3_steps.specs.Possible.{
  JoinedArePossible,
  MayBeWhereMet,
  MayBeWhereYet,
  MayBeginWhereMet,
  MayBeginWhereYet,
};

/// What holds in a state that keeps what no step changes may hold; so a precondition that cannot
/// begin holds in no such state. Nor can it where it cannot yet begin at its first objects.
pub fn what_is_left_out_never_begins()
    ensures condition { MayBeWhereMet }
    ensures goal { MayBeginWhereMet }
    ensures condition_yet { MayBeWhereYet }
    ensures goal_yet { MayBeginWhereYet }
{}

/// Each atom that `and` alone joins in a precondition that may begin is one that a step may change,
/// or holds at the start.
pub fn candidates_have_possible_atoms()
    ensures { JoinedArePossible }
{}
