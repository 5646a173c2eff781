//! Laws of scenes and answers: each is the contract of a function without a body.

ghost use Rattle.p3_scenes.specs.Questions.{
  EvidenceIsKept,
  GoalsAreAnswered,
  OperatorsAreAnswered,
  PreconditionsAreAnswered,
  PreferencesAreAnswered,
};
ghost use Rattle.p3_scenes.specs.Worked.{FirstWordsOfFormulas, OperatorsAtObjects};

/// Where a question is about a visited state and a scene of the task, a precondition or the goal,
/// its answer decides in that state what is meant by name; and what shows it of a scene's operator
/// shows it of the named one.
pub fn answers_decide_visited_states()
    ensures operators { OperatorsAreAnswered }
    ensures preferences { PreferencesAreAnswered }
    ensures preconditions { PreconditionsAreAnswered }
    ensures goals { GoalsAreAnswered }
    ensures evidence { EvidenceIsKept }
{}

/// Small constraints at objects, and the first words of formulas.
pub fn worked_scenes()
    ensures operators { OperatorsAtObjects }
    ensures words { FirstWordsOfFormulas }
{}
