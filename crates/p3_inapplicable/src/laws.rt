//! The laws of what is said of steps. Each is the contract of a function without a body.

ghost use Rattle.p3_inapplicable.specs.Arguments.{FaultyWhereNoArguments};
ghost use Rattle.p3_inapplicable.specs.Values.{MissingWhereNoCost};
ghost use Rattle.p3_inapplicable.specs.Worked.{FaultsOfLoads, ValuesOfDrives};

/// There is a fault of arguments exactly where they are not the action's, and a value that is
/// missing exactly where a step has no cost.
pub fn what_is_wrong_has_a_fault()
    ensures arguments { FaultyWhereNoArguments }
    ensures values { MissingWhereNoCost }
{}

/// Small steps, and what is wrong with them.
pub fn worked_faults()
    ensures arguments { FaultsOfLoads }
    ensures values { ValuesOfDrives }
{}
