//! The parts of numbered trees whose form is known.

ghost use Rattle.std.specs.Option.{option_copied};
ghost use Rattle.p3_scenes.specs.Parts.{
  AreGoalRanges,
  AreGoals,
  AreParts,
  AreRanges,
  IsBody,
  IsGoalBody,
  IsOperator,
  IsPreference,
  IsPreferred,
};

use p3_numbers::{NumberedConstraint, NumberedGoal, NumberedModal, NumberedPreference};

/// The parts of a conjunction.
pub(crate) fn constraints_in(constraint: &NumberedConstraint) -> &[NumberedConstraint]
    ensures { AreParts constraint.now result.now }
{
    match constraint {
        NumberedConstraint::Both(parts) => parts.items(),
        _ => &[],
    }
}

/// The ranges of a quantifier.
pub(crate) fn ranges_in(constraint: &NumberedConstraint) -> &[u32]
    ensures { AreRanges constraint.now result.now }
{
    match constraint {
        NumberedConstraint::Each(ranges, _) => ranges.items(),
        _ => &[],
    }
}

/// The body of a quantifier or of a preference.
pub(crate) fn body_in(constraint: &NumberedConstraint) -> &NumberedConstraint
    ensures each { IsBody constraint.now result.now }
    ensures soft { IsPreferred constraint.now result.now }
{
    match constraint {
        NumberedConstraint::Each(_, body) => body.get(),
        NumberedConstraint::Soft { body, .. } => body.get(),
        _ => constraint,
    }
}

/// The operator.
pub(crate) fn modal_in(constraint: &NumberedConstraint) -> Option<&NumberedModal>
    ensures { IsOperator constraint.now (option_copied result) }
{
    match constraint {
        NumberedConstraint::Single(modal) => Some(modal),
        _ => None,
    }
}

/// The parts of a conjunction.
pub(crate) fn goals_in(goal: &NumberedGoal) -> &[NumberedGoal]
    ensures { AreGoals goal.now result.now }
{
    match goal {
        NumberedGoal::Both(parts) => parts.items(),
        _ => &[],
    }
}

/// The ranges of a quantifier.
pub(crate) fn goal_ranges_in(goal: &NumberedGoal) -> &[u32]
    ensures { AreGoalRanges goal.now result.now }
{
    match goal {
        NumberedGoal::Each(ranges, _) => ranges.items(),
        _ => &[],
    }
}

/// The body of a quantifier.
pub(crate) fn goal_body_in(goal: &NumberedGoal) -> &NumberedGoal
    ensures { IsGoalBody goal.now result.now }
{
    match goal {
        NumberedGoal::Each(_, body) => body.get(),
        _ => goal,
    }
}

/// The preference.
pub(crate) fn preference_in(goal: &NumberedGoal) -> Option<&NumberedPreference>
    ensures { IsPreference goal.now (option_copied result) }
{
    match goal {
        NumberedGoal::Soft(preference) => Some(preference),
        _ => None,
    }
}
