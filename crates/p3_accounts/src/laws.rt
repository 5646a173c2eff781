//! The laws of accounts. Each is the contract of a function without a body.

ghost use Rattle.p3_accounts.specs.Shares.{SharesAreOfPlans};
ghost use Rattle.p3_accounts.specs.Words.{AtomsAreFacts};
ghost use Rattle.p3_accounts.specs.Worked.{
  AnAccountOfAPrecondition,
  FaultsOfSteps,
  HeadingsOfConstraints,
  NamesOfTasks,
  SharesOfAMetric,
  StatesThatShow,
};

/// An atom is printed as the fact that it stands for; shares that are those of a plan are printed
/// as what the definitions say that its metric is made of.
pub fn accounts_are_of_plans()
    ensures atoms { AtomsAreFacts }
    ensures shares { SharesAreOfPlans }
{}

/// Small accounts, and what they are printed as.
pub fn worked_accounts()
    ensures whole { AnAccountOfAPrecondition }
    ensures faults { FaultsOfSteps }
    ensures headings { HeadingsOfConstraints }
    ensures states { StatesThatShow }
    ensures shares { SharesOfAMetric }
    ensures names { NamesOfTasks }
{}
