//! Laws of what is expanded. Each is the contract of a function without a body.

ghost use Rattle.std.specs.Prelude.{List};
ghost use Rattle.p3_numbers.specs.declared.numbers.Numbers.{Numbers};
ghost use Rattle.p3_expansion.specs.Atoms.{GroundAtom};
ghost use Rattle.p3_expansion.specs.Bounds.{AreBounded};
ghost use Rattle.p3_expansion.specs.NamedGoals.{HardPartsHold, PreferencesHold};
ghost use Rattle.p3_expansion.specs.NamedReads.{WellFormedReadsNames};
ghost use Rattle.p3_expansion.specs.NextStates.{ChangesAreFew, ChangesMakeNext, StartIsTold};
ghost use Rattle.p3_expansion.specs.declared.statics.Statics.{Statics};

/// All that is read of the trees of a well-formed task has names.
pub fn well_formed_tasks_read_names()
    ensures { WellFormedReadsNames }
{}

/// Forms that stand for the hard part and for the preferences of a numbered goal hold where those of
/// the precondition or goal do that it was made of.
pub fn expanded_goals_mean_their_goals()
    ensures hard { HardPartsHold }
    ensures preferences { PreferencesHold }
{}

/// The atoms of what stands for something lie below the count of atoms.
pub fn what_stands_is_bounded()
    ensures { (N : Numbers) (S : Statics) (atoms : List GroundAtom) → AreBounded N S atoms }
{}

/// The bits of atoms at the start tell the initial state.
pub fn the_start_is_told()
    ensures { StartIsTold }
{}

/// Changes that stand for the literals of an effect make the state after it, and are of the atoms
/// of these literals and no more than they.
pub fn changes_stand_for_the_effect()
    ensures next { ChangesMakeNext }
    ensures few { ChangesAreFew }
{}
