//! Laws of literals that decide: each is the contract of a function without a body.

ghost use Rattle.p3_reasons.specs.Decided.{FormulasAreDecided, HardPartsAreDecided};
ghost use Rattle.p3_reasons.specs.Evidences.{WhatIsShownIsEvident};
ghost use Rattle.p3_reasons.specs.Telling.{NextIsTold, StartIsTold};
ghost use Rattle.p3_reasons.specs.Visits.{VisitsAreTold};
ghost use Rattle.p3_reasons.specs.Worked.{
  ImplicationsThatAreDecided,
  PartsThatDecide,
  QuantifiersThatAreDecided,
};

/// What is told of the condition that a formula becomes decides the formula, in each state of which
/// the facts are told.
pub fn deciding_literals_decide()
    ensures formulas { FormulasAreDecided }
    ensures hard_parts { HardPartsAreDecided }
{}

/// The facts that are told at the start are those of the initial state, and where those of a state are
/// told, they are after an effect those of the next state; so behind the steps of a plan they are those
/// of the state that it leads to.
pub fn facts_are_told()
    ensures start { StartIsTold }
    ensures next { NextIsTold }
    ensures visits { VisitsAreTold }
{}

/// What is shown of an operator over the visited states is so there.
pub fn what_is_shown_is_evident()
    ensures { WhatIsShownIsEvident }
{}

/// Small formulas, and which literals decide them.
pub fn worked_decisions()
    ensures parts { PartsThatDecide }
    ensures implications { ImplicationsThatAreDecided }
    ensures quantifiers { QuantifiersThatAreDecided }
{}
