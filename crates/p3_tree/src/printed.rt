//! Worked cases of what is printed. Each is the contract of a function without a body.

ghost use Rattle.p3_tree.specs.Worked.Followed.{ExplainedPlans, FollowedPlans, LinesOfTexts};
ghost use Rattle.p3_tree.specs.Worked.Lines.{
  LinesOfPlans,
  LinesOfTasks,
  LinesOfUsage,
  SamplesForOneAndThree,
  WordsOfCommands,
};
ghost use Rattle.p3_tree.specs.Worked.Refusals.{
  NotRefused,
  RefusedNames,
  RefusedTasks,
  RefusedTexts,
};
ghost use Rattle.p3_tree.specs.Worked.Touching.{ConditionsOfSteps};

/// The lines of refused texts and tasks.
pub fn refused_cases()
    ensures texts { RefusedTexts }
    ensures names { RefusedNames }
    ensures tasks { RefusedTasks }
    ensures limits { NotRefused }
    ensures conditions { ConditionsOfSteps }
{}

/// The lines of compiled tasks and evaluated plans, the samples, and the words of commands.
pub fn printed_cases()
    ensures tasks { LinesOfTasks }
    ensures plans { LinesOfPlans }
    ensures samples { SamplesForOneAndThree }
    ensures commands { WordsOfCommands }
    ensures usage { LinesOfUsage }
{}

/// The lines of plans that are explained and followed.
pub fn followed_cases()
    ensures explained { ExplainedPlans }
    ensures followed { FollowedPlans }
    ensures lines { LinesOfTexts }
{}
