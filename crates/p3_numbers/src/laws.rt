//! Laws of numbered trees: each means what the tree means that it was made of. Each is the contract
//! of a function without a body.

ghost use Rattle.p3_numbers.specs.Conditions.{TruthIsKept};
ghost use Rattle.p3_numbers.specs.Constraints.{
  HardOperatorsAreKept,
  InstancesAreKept,
  OperatorsAreKept,
  SatisfactionIsKept,
};
ghost use Rattle.p3_numbers.specs.Effects.{AddsAreKept, CostIsKept, DeletesAreKept, LiteralsAreKept};
ghost use Rattle.p3_numbers.specs.Goals.{HardPartIsKept, PreferencesAreKept};
ghost use Rattle.p3_numbers.specs.Known.{WellFormedIsKnown};
ghost use Rattle.p3_numbers.specs.Places.{ArgumentsAreKept, IsNumbering, TuplesAreKept, TuplesFill};
ghost use Rattle.p3_numbers.specs.Starts.{StartIsKept};
ghost use Rattle.p3_numbers.specs.Worked.{
  ATypeWithoutObjects,
  AnInnerVariableHasASlotOfItsOwn,
  EqualTermsAreOneObject,
};
ghost use Rattle.p3_numbers.specs.declared.numbers.Numbers.{Numbers};
ghost use Rattle.p3_task.specs.declared.task.Task.{Task};

/// A condition holds where its formula does.
pub fn numbered_conditions_mean_their_formulas()
    ensures { (T : Task) (N : Numbers) → IsNumbering T N → TruthIsKept T N }
{}

/// A goal has the hard part and the preferences of the precondition or goal that it was made of.
pub fn numbered_goals_mean_their_goals()
    ensures hard { (T : Task) (N : Numbers) → IsNumbering T N → HardPartIsKept T N }
    ensures preferences { (T : Task) (N : Numbers) → IsNumbering T N → PreferencesAreKept T N }
{}

/// An effect adds and deletes the atoms, has the literals and costs the amount of the effect that it
/// was made of.
pub fn numbered_effects_mean_their_effects()
    ensures adds { (T : Task) (N : Numbers) → IsNumbering T N → AddsAreKept T N }
    ensures deletes { (T : Task) (N : Numbers) → IsNumbering T N → DeletesAreKept T N }
    ensures literals { (T : Task) (N : Numbers) → IsNumbering T N → LiteralsAreKept T N }
    ensures cost { (T : Task) (N : Numbers) → IsNumbering T N → CostIsKept T N }
{}

/// A constraint has the operators and the preferences of the constraint that it was made of, and is
/// satisfied where that is.
pub fn numbered_constraints_mean_their_constraints()
    ensures hard { (T : Task) (N : Numbers) → IsNumbering T N → HardOperatorsAreKept T N }
    ensures operators { (T : Task) (N : Numbers) → IsNumbering T N → OperatorsAreKept T N }
    ensures satisfied { (T : Task) (N : Numbers) → IsNumbering T N → SatisfactionIsKept T N }
    ensures preferences { (T : Task) (N : Numbers) → IsNumbering T N → InstancesAreKept T N }
{}

/// The atoms by number of the initial state are those that are true in it.
pub fn numbered_start_means_the_start()
    ensures { (T : Task) (N : Numbers) → StartIsKept T N }
{}

/// All in the trees of a well-formed task is known to numbers that cover it.
pub fn well_formed_tasks_are_known()
    ensures { WellFormedIsKnown }
{}

/// The choices of objects for the parameters of an action are the arguments of its steps.
pub fn numbered_arguments_mean_their_arguments()
    ensures tuples { (T : Task) (N : Numbers) → IsNumbering T N → TuplesAreKept T N }
    ensures filled { (T : Task) (N : Numbers) → IsNumbering T N → TuplesFill N }
    ensures bound { (N : Numbers) → ArgumentsAreKept N }
{}

/// What small formulas become, and where they hold.
pub fn worked_conditions()
    ensures hiding { AnInnerVariableHasASlotOfItsOwn }
    ensures equality { EqualTermsAreOneObject }
    ensures empty_type { ATypeWithoutObjects }
{}
