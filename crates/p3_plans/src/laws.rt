//! Laws of the definitions. Each is the contract of a function without a body.

ghost use Rattle.std.specs.Prelude.{◌≡◌, ◌≤◌, ◌↔◌, ℕ, List, length, None};
ghost use Rattle.p3_task.specs.Plans.{Plan};
ghost use Rattle.p3_task.specs.PlanTexts.{IsPlanText, plan_offence, step_limit};
ghost use Rattle.p3_plans.specs.Laws.{AreTextsOf, HasPlan, StepsBeforeOffences, all_of};

/// A text has one plan at most.
pub fn one_plan_at_most()
    ensures { (text : List ℕ) (p q : Plan) → IsPlanText text p → IsPlanText text q → p ≡ q }
{}

/// A text has a plan of at most 1,000,000 steps exactly where it has no offence.
pub fn a_plan_where_no_offence()
    ensures { (text : List ℕ) → HasPlan text ↔ (plan_offence text ≡ None) }
{}

/// A reader gives the steps of two texts, and what ends them.
pub fn steps_before_offences()
    ensures { StepsBeforeOffences }
{}

/// The slices that a reader gives of a plan's text are texts of its steps, in order.
pub fn slices_are_texts_of_steps()
    ensures { (text : List ℕ) (plan : Plan) → IsPlanText text plan → length plan ≤ step_limit
        → AreTextsOf (all_of text).steps plan }
{}
