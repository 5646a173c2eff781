//! Laws of the definitions. Each is the contract of a function without a body.

ghost use Rattle.std.specs.Prelude.{◌≡◌, ◌⊎◌, ◌↔◌, ◌&&◌, ◌||◌, ◌∷◌, [], not, ℕ, All, List, IsTrue, None, length};
ghost use Rattle.p3_base.specs.declared.refusal.Refusal.{Refusal};
ghost use Rattle.p3_base.specs.declared.refusal.Side.{Side};
ghost use Rattle.p3_task.specs.Refusals.First.{AreAccepted, Given, IsFirstRefusal, given_task};
ghost use Rattle.p3_task.specs.declared.term.Ref.{Ref};
ghost use Rattle.p3_task.specs.declared.term.Typed.{Typed};
ghost use Rattle.p3_task.specs.declared.formula.Formula.{Formula};
ghost use Rattle.p3_task.specs.declared.constraint.Constraint.{Constraint};
ghost use Rattle.p3_task.specs.declared.effect.Effect.{Effect};
ghost use Rattle.p3_task.specs.declared.state.Fact.{Fact};
ghost use Rattle.p3_task.specs.declared.task.Task.{Task};
ghost use Rattle.p3_task.specs.Names.{Name, object_type};
ghost use Rattle.p3_task.specs.Types.{declared_pairs, below};
ghost use Rattle.p3_task.specs.States.{State, Environment, has_fact};
ghost use Rattle.p3_task.specs.Effects.{adds, dels, next};
ghost use Rattle.p3_task.specs.Plans.{Plan};
ghost use Rattle.p3_task.specs.Validity.{Valid, first_fault};
ghost use Rattle.p3_task.specs.Metrics.{metric_quantity, metric_places};
ghost use Rattle.p3_task.specs.Offences.{WellFormed};
ghost use Rattle.p3_task.specs.FirstOffence.{first_offence};
ghost use Rattle.p3_task.specs.Lifting.{lift};
ghost use Rattle.p3_task.specs.Faithful.{Faithful};
ghost use Rattle.p3_task.specs.Explanations.{shown};
ghost use Rattle.p3_task.specs.PlanTexts.{IsPlanText};
ghost use Rattle.p3_task.specs.Shows.{Shows};
ghost use Rattle.p3_task.specs.Tokens.{tokens_of};
ghost use Rattle.p3_task.specs.Watching.{IsLine, OneStep, lines_of, second_step, step_in};
ghost use Rattle.p3_task.specs.Modal.{Modal};
ghost use Rattle.p3_task.specs.declared.task.Step.{Step};
ghost use Rattle.p3_task.specs.Laws.{Chain, IsCheapest, IsBest, StateCounts, TrajectoryCounts};
ghost use Rattle.p3_task.specs.Grammar.Texts.{Reads};
ghost use Rattle.p3_task.specs.Erased.{erased};
ghost use Rattle.p3_task.specs.Offsets.{OffsetFree};
ghost use Rattle.p3_task.specs.Worked.FirstExample.{FirstExample};
ghost use Rattle.p3_task.specs.Worked.Decimals.{NumbersWithAPoint};
ghost use Rattle.p3_task.specs.Worked.Limits.{CountsForLimits};
ghost use Rattle.p3_task.specs.Worked.Offences.{DomainOffences, ProblemOffences};
ghost use Rattle.p3_task.specs.Worked.Preferences.{ATypeMayHaveNoObjects, CountsOfOneNameAdd, GreatValuesMayBeBetter};
ghost use Rattle.p3_task.specs.Worked.Steps.{AnInnerVariableHidesAnOuterOne, AnAddWinsOverADelete, TheSecondStepFails};
ghost use Rattle.p3_task.specs.Worked.Texts.{TextsOfTasks, TextsOfNoTask};
ghost use Rattle.p3_task.specs.Worked.Trajectories.{TheSameStateIsNotBefore, AtMostOnceMeansOneStretch, SometimeAfterMeansThenOrLater};
ghost use Rattle.p3_task.specs.Worked.Trucks.{TheDelivery, FaultsOfOneStep};

/// A pair of texts has one task at most.
pub fn one_task_at_most()
    ensures { (d p : List ℕ) (T U : Task) → Reads d p T → Reads d p U → T ≡ U }
{}

/// The order of types is the reflexive and transitive closure of the declared pairs, with `object`
/// above every type.
pub fn below_is_the_closure()
    ensures { (T : Task) (low high : Name) → IsTrue (below T low high)
        ↔ ((high ≡ object_type) ⊎ Chain (declared_pairs T) low high) }
{}

/// An atom is in the next state exactly where it is added, or was there and is not deleted.
pub fn atoms_of_the_next_state()
    ensures { (T : Task) (s : State) (env : Environment) (e : Effect) (fact : Fact)
        → has_fact (next T s env e) fact
        ≡ (has_fact (adds T s env e) fact ||
        (has_fact s fact && not (has_fact (dels T s env e) fact))) }
{}

/// A task is well-formed exactly where it has no first offence.
pub fn well_formed_where_no_offence()
    ensures { (T : Task) → WellFormed T ↔ (first_offence T ≡ None) }
{}

/// A plan is valid exactly where it has no first fault.
pub fn valid_where_no_fault()
    ensures { (T : Task) (plan : Plan) → Valid T plan ↔ (first_fault T plan ≡ None) }
{}

/// The decimal places of a metric are the same at all counts and costs.
pub fn places_of_a_metric_are_fixed()
    ensures { (T : Task) (counts : Name → ℕ) (total : ℕ)
        → (metric_quantity T counts total).places ≡ metric_places T }
{}

/// A preference under `forall` counts once for each binding that leaves it unsatisfied, and one whose
/// body is a `forall` counts once.
pub fn counts_by_place()
    ensures states { (T : Task) (s : State) (env : Environment) (variables : List Typed) (at : ℕ)
        (name : Ref)
        (body : Formula) → StateCounts T s env variables at name body }
    ensures trajectories { (T : Task) (W : List State) (env : Environment) (variables : List Typed)
        (at : ℕ)
        (name : Ref) (body : Constraint) → TrajectoryCounts T W env variables at name body }
{}

/// The cheapest plans of a faithful translation lift to best plans.
pub fn optima_are_kept()
    ensures { (T U : Task) → Faithful T U → (q : Plan) → IsCheapest U q → IsBest T (lift T q) }
{}

/// No definition of meaning, from types on, depends on the offsets kept in trees, down to what it is
/// that a translation is faithful.
pub fn offsets_have_no_meaning()
    ensures definitions { (T : Task) → OffsetFree T }
    ensures faithful { (T U : Task) → Faithful (erased T) (erased U) ↔ Faithful T U }
{}

/// What small tasks mean.
pub fn worked_cases()
    ensures first_example { FirstExample }
    ensures hiding { AnInnerVariableHidesAnOuterOne }
    ensures add_and_delete { AnAddWinsOverADelete }
    ensures second_step { TheSecondStepFails }
    ensures empty_type { ATypeMayHaveNoObjects }
    ensures three_places { CountsOfOneNameAdd }
    ensures maximize { GreatValuesMayBeBetter }
    ensures same_state { TheSameStateIsNotBefore }
    ensures at_most_once { AtMostOnceMeansOneStretch }
    ensures sometime_after { SometimeAfterMeansThenOrLater }
    ensures delivery { TheDelivery }
    ensures faults { FaultsOfOneStep }
    ensures domain_offences { DomainOffences }
    ensures problem_offences { ProblemOffences }
    ensures limits { CountsForLimits }
    ensures decimals { NumbersWithAPoint }
    ensures texts { TextsOfTasks }
    ensures refused { TextsOfNoTask }
{}

/// What a command reads shows one first refusal at most.
pub fn one_first_refusal()
    ensures { (given : Given) (r s : Refusal) → IsFirstRefusal given r → IsFirstRefusal given s
        → r ≡ s }
{}

/// Nothing is refused of accepted texts.
pub fn accepted_texts_are_not_refused()
    ensures { (side : Side) (d p : List ℕ) (T : Task) → AreAccepted side d p T
        → (r : Refusal) → IsFirstRefusal (given_task side d p) r → ⊥ }
{}

/// What is shown of an operator shows whether it is satisfied over the visited states.
pub fn what_is_shown_shows()
    ensures { (T : Task) (W : List State) (env : Environment) (modal : Modal)
        → Shows T W env modal (shown T W env modal) }
{}

/// The pieces of a text have no line feed, and none is longer than the text.
pub fn pieces_are_lines()
    ensures { (text : List ℕ) → All (IsLine (length text)) (lines_of text) }
{}

/// A text of a plan with one step has that step alone.
pub fn one_step_is_the_plan()
    ensures { (text : List ℕ) (plan : Plan) (at : ℕ) (step : Step) → IsPlanText text plan
        → second_step (tokens_of text).tokens ≡ None
        → step_in (tokens_of text).tokens ≡ OneStep at step → plan ≡ step ∷ [] }
{}
