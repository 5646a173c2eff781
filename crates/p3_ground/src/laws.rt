//! The laws of ground tasks that stand for tasks. Each is the contract of a function without a
//! body.

ghost use Rattle.std.specs.Prelude.{◌≡◌, ◌↔◌, ℕ, ◌+◌, ◌*◌, List, length, IsTrue};
ghost use Rattle.std.specs.List.{list_all, range_with_len};
ghost use Rattle.p3_task.specs.Constraints.{instances};
ghost use Rattle.p3_task.specs.Faithful.{extra};
ghost use Rattle.p3_task.specs.Lifting.{lift, steps};
ghost use Rattle.p3_task.specs.Offences.{WellFormed};
ghost use Rattle.p3_task.specs.Plans.{Plan, steps_fit};
ghost use Rattle.p3_task.specs.PreferenceNames.{ordered_names};
ghost use Rattle.p3_task.specs.Validity.{Valid};
ghost use Rattle.p3_task.specs.declared.state.Fact.{Fact};
ghost use Rattle.p3_task.specs.declared.task.Task.{Task};
ghost use Rattle.p3_task.specs.Worked.FirstExample.{read};
ghost use Rattle.p3_formula.specs.Conditions.{HasNamesBelow};
ghost use Rattle.p3_formula.specs.Forms.{State};
ghost use Rattle.p3_formula.specs.GroundPlans.{
  GroundPlan,
  GroundValid,
  ground_cost,
  ground_fits,
  ground_loss,
  ground_moves,
};
ghost use Rattle.p3_formula.specs.Targets.{ground_lift};
ghost use Rattle.p3_formula.specs.Weighted.{ground_extra};
ghost use Rattle.p3_formula.specs.declared.target.Weights.{Weights};
ghost use Rattle.p3_formula.specs.declared.task.GroundTask.{GroundTask};
ghost use Rattle.p3_reach.specs.Closed.{IsClosed, IsInEachClosed};
ghost use Rattle.p3_ground.specs.PlansByNumber.{
  AreAsked,
  AreNumbers,
  CountsAgree,
  HasNameWeights,
  HasValidNumbers,
  are_bare,
  names_of,
  weighed_violations,
};
ghost use Rattle.p3_ground.specs.Pruned.{pruned};
ghost use Rattle.p3_ground.specs.Sparse.{
  ConstraintsHaveOwnAtoms,
  IsGroundingOf,
  Sparse,
  StepsHaveFewChanges,
  StepsHavePossibleConjuncts,
};
ghost use Rattle.p3_ground.specs.StandsFor.{
  LeavesOutOnlyUnfit,
  StandsBy,
  StandsFor,
  StandsForSteps,
  StandsIn,
};
ghost use Rattle.p3_ground.specs.Worked.{smallest};

/// A plan is valid exactly where all its steps are steps of the task and the list of their numbers
/// is a valid ground plan.
pub fn plans_are_valid_by_number()
    ensures exactly { (T : Task) (G : GroundTask) → WellFormed T → StandsFor T G
        → (plan : Plan) → Valid T plan ↔ HasValidNumbers T G plan }
    ensures alike { (T : Task) (G : GroundTask) → WellFormed T → StandsFor T G
        → (plan : Plan) (numbers : GroundPlan) → AreNumbers T plan numbers
        → Valid T plan ↔ GroundValid G numbers }
    ensures fits { (T : Task) (plan : Plan) → Valid T plan → IsTrue (steps_fit T plan) }
{}

/// A plan whose steps fit, as those of a valid plan do, violates each preference name as often as
/// the list of their numbers, and costs as much; and the ground loss is what both weigh.
pub fn counts_and_costs_agree()
    ensures agree { (T : Task) (G : GroundTask) → WellFormed T → StandsFor T G
        → (plan : Plan) (numbers : GroundPlan) → AreNumbers T plan numbers
        → IsTrue (steps_fit T plan) → CountsAgree T G plan numbers }
    ensures losses { (T : Task) (G : GroundTask) (weights : Weights) → WellFormed T → StandsFor T G
        → length weights.by_name ≡ length (ordered_names T)
        → (plan : Plan) (numbers : GroundPlan) → AreNumbers T plan numbers
        → IsTrue (steps_fit T plan)
        → ground_loss G weights numbers ≡ weights.total_cost * ground_cost G numbers
        + weighed_violations T weights.by_name plan }
    ensures instances { (T : Task) (G : GroundTask) → StandsFor T G
        → length (instances T) ≡ length G.soft }
{}

/// The wide steps of a plan take as many actions more as their numbers.
pub fn wide_steps_take_as_many_actions()
    ensures { (T : Task) (G : GroundTask) (weights : Weights) → WellFormed T → StandsFor T G
        → HasNameWeights T weights.by_name
        → (plan : Plan) (numbers : GroundPlan) → AreNumbers T plan numbers
        → IsTrue (steps_fit T plan) → extra T plan ≡ ground_extra G weights numbers }
{}

/// A ground task stands for the task exactly where it stands for it in the steps of all numbers;
/// then it does so in those of any numbers.
pub fn all_steps_are_the_whole_task()
    ensures exactly { (T : Task) (G : GroundTask)
        → StandsFor T G ↔ StandsForSteps T G (range_with_len 0 (length (steps T))) }
    ensures any { (T : Task) (G : GroundTask) (numbers : List ℕ)
        → StandsFor T G → StandsForSteps T G numbers }
{}

/// Steps may be asked of a ground task where it has each of them, or leaves it out as one that can
/// begin in no reached state: all steps of one that stands for the task; those of its numbers, of
/// one that stands for the task in these; and of any ground task the steps that were done.
pub fn steps_that_were_done_are_asked()
    ensures all { (T : Task) (G : GroundTask) → StandsFor T G
        → (plan : Plan) (numbers : GroundPlan) → AreNumbers T plan numbers
        → AreAsked T G plan numbers }
    ensures those { (T : Task) (G : GroundTask)
        → (plan : Plan) (numbers : GroundPlan) → StandsForSteps T G numbers
        → AreNumbers T plan numbers → AreAsked T G plan numbers }
    ensures done { (T : Task) (G : GroundTask)
        → (plan : Plan) (numbers : GroundPlan) → AreNumbers T plan numbers
        → IsTrue (list_all (λ (move : State × ℕ). ground_fits G move.0 move.1)
        (ground_moves G numbers)) → AreAsked T G plan numbers }
{}

/// A plan whose steps are asked of a ground task that stands for the task in some steps is valid
/// exactly where the list of their numbers is a valid ground plan, and violates and costs as much.
pub fn plans_that_are_asked_agree()
    ensures alike { (T : Task) (G : GroundTask) → WellFormed T → StandsIn T G
        → (plan : Plan) (numbers : GroundPlan) → AreAsked T G plan numbers
        → Valid T plan ↔ GroundValid G numbers }
    ensures agree { (T : Task) (G : GroundTask) → WellFormed T → StandsIn T G
        → (plan : Plan) (numbers : GroundPlan) → AreAsked T G plan numbers
        → IsTrue (steps_fit T plan) → CountsAgree T G plan numbers }
{}

/// A plan has one list of numbers, as long as the plan, and no other plan has it.
pub fn numbers_are_one_to_one()
    ensures one_list { (T : Task) → WellFormed T → (plan : Plan) (numbers others : GroundPlan)
        → AreNumbers T plan numbers → AreNumbers T plan others → numbers ≡ others }
    ensures one_plan { (T : Task) (plan other : Plan) (numbers : GroundPlan)
        → AreNumbers T plan numbers → AreNumbers T other numbers → plan ≡ other }
    ensures as_long { (T : Task) (plan : Plan) (numbers : GroundPlan)
        → AreNumbers T plan numbers → length plan ≡ length numbers }
{}

/// A plan of a written task lifts to steps whose numbers are what the names of its actions lift to.
pub fn written_plans_lift_alike()
    ensures { (T : Task) (G : GroundTask) → StandsFor T G
        → (written : Plan) → IsTrue (are_bare written)
        → AreNumbers T (lift T written) (ground_lift G (names_of written)) }
{}

/// All numbers of names in the ground task are below the count of the preference names.
pub fn names_are_below()
    ensures { (T : Task) (G : GroundTask) → StandsFor T G → HasNamesBelow G.names G }
{}

/// A ground task stands for its task also without the steps that cannot fit over a closed set of
/// atoms; and without those that cannot fit over the least one, each step that is left may fit over
/// every one.
pub fn steps_that_never_fit_may_be_left_out()
    ensures stands { (T : Task) (atoms : List Fact) (G : GroundTask) (set : State) → WellFormed T
        → StandsBy T atoms G → IsClosed G set → StandsBy T atoms (pruned set G) }
    ensures left_out { (T : Task) (atoms : List Fact) (G : GroundTask) (set : State)
        → WellFormed T → StandsBy T atoms G → LeavesOutOnlyUnfit T G → IsClosed G set
        → LeavesOutOnlyUnfit T (pruned set G) }
    ensures sparse { (T : Task) (atoms : List Fact) (G : GroundTask) (set : State)
        → StepsHaveFewChanges T atoms G → ConstraintsHaveOwnAtoms T atoms G
        → StepsHavePossibleConjuncts T G
        → IsClosed G set → IsInEachClosed G set → Sparse T atoms (pruned set G) }
{}

/// A sparse ground task stands for the smallest useful task, so that the premises can be met.
pub fn the_smallest_task_has_a_ground_task()
    ensures { IsGroundingOf read smallest }
{}
