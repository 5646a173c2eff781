//! Laws of the definitions on which grounding rests. Each is the contract of a function without a
//! body.

ghost use Rattle.p3_task.specs.Bindings.{are_arguments};
ghost use Rattle.p3_task.specs.Conjuncts.{all_hold, formula_conjuncts, goal_conjuncts};
ghost use Rattle.p3_task.specs.Constraints.{HardModal, operators, sat, satisfies};
ghost use Rattle.p3_task.specs.Effects.{adds, dels};
ghost use Rattle.p3_task.specs.Formulas.{holds};
ghost use Rattle.p3_task.specs.Goals.{hard_holds, pref_names, prefs};
ghost use Rattle.p3_task.specs.Known.{KnowsUses};
ghost use Rattle.p3_task.specs.Literals.{clears, literals, sets};
ghost use Rattle.p3_task.specs.Offences.{WellFormed};
ghost use Rattle.p3_task.specs.Plans.{Reached};
ghost use Rattle.p3_task.specs.States.{Environment, State, has_fact};
ghost use Rattle.p3_task.specs.Static.{IsSettled};
ghost use Rattle.p3_task.specs.StepNumbers.{HasStepNumbers};
ghost use Rattle.p3_task.specs.declared.constraint.Constraint.{Constraint};
ghost use Rattle.p3_task.specs.declared.effect.Effect.{Effect};
ghost use Rattle.p3_task.specs.declared.formula.Formula.{Formula};
ghost use Rattle.p3_task.specs.declared.goal.PreGoal.{PreGoal};
ghost use Rattle.p3_task.specs.declared.state.Fact.{Fact};
ghost use Rattle.p3_task.specs.declared.task.Task.{Task};
ghost use Rattle.std.specs.List.{list_all, list_any};
ghost use Rattle.std.specs.Prelude.{List, true, ◌≡◌};

/// An effect adds and deletes what its literals do whose conditions hold.
pub fn effects_are_their_literals()
    ensures adds { (T : Task) (s : State) (env : Environment) (e : Effect) (fact : Fact)
        → has_fact (adds T s env e) fact ≡ list_any (sets T s fact) (literals T env e) }
    ensures dels { (T : Task) (s : State) (env : Environment) (e : Effect) (fact : Fact)
        → has_fact (dels T s env e) fact ≡ list_any (clears T s fact) (literals T env e) }
{}

/// A constraint is satisfied where all its operators are.
pub fn constraints_are_their_operators()
    ensures { (T : Task) (W : List State) (env : Environment) (c : Constraint)
        → sat T W env c
        ≡ list_all (λ (h : HardModal). satisfies T W h.env h.modal) (operators T env c) }
{}

/// Where a formula or a hard goal holds, so does each atom that `and` alone joins in it.
pub fn conjuncts_hold()
    ensures formulas { (T : Task) (s : State) (env : Environment) (f : Formula)
        → holds T s env f ≡ true → all_hold s env (formula_conjuncts f) ≡ true }
    ensures goals { (T : Task) (s : State) (env : Environment) (g : PreGoal)
        → hard_holds T s env g ≡ true → all_hold s env (goal_conjuncts g) ≡ true }
{}

/// What no effect names is in every reached state as at the start.
pub fn static_atoms_stay()
    ensures { (T : Task) (s : State) → Reached T s → IsSettled T s }
{}

/// The steps of a well-formed task have one number each.
pub fn steps_have_one_number()
    ensures { (T : Task) → WellFormed T → HasStepNumbers T }
{}

/// A well-formed task knows every name that it uses.
pub fn all_uses_are_known()
    ensures { (T : Task) → WellFormed T → KnowsUses T }
{}

/// How many preferences a precondition has, and their names, is the same for all arguments.
pub fn preferences_are_the_same_for_all_arguments()
    ensures { (T : Task) (env other : Environment) (g : PreGoal)
        → pref_names (prefs T env g) ≡ pref_names (prefs T other g) }
{}
