//! The laws of accepted tasks and of their runs. Each is the contract of a function without a body.

ghost use Rattle.std.specs.Prelude.{◌≡◌, ◌+◌, ◌∷◌, ◌++◌, ℕ, length, IsTrue, None, Some};
ghost use Rattle.p3_base.specs.declared.refusal.Side.{Side};
ghost use Rattle.p3_task.specs.Metrics.{cost, value};
ghost use Rattle.p3_task.specs.Offences.{WellFormed};
ghost use Rattle.p3_task.specs.Plans.{Plan, last_state, steps_fit, visited};
ghost use Rattle.p3_task.specs.Refusals.First.{task_refusal};
ghost use Rattle.p3_task.specs.StepNumbers.{HasNumber};
ghost use Rattle.p3_task.specs.Validity.{AtStep, Misfit, first_fault, misfit};
ghost use Rattle.p3_task.specs.declared.task.Step.{Step};
ghost use Rattle.p3_task.specs.declared.task.Task.{Task};
ghost use Rattle.p3_formula.specs.Conditions.{IsReady};
ghost use Rattle.p3_formula.specs.GroundPlans.{GroundPlan};
ghost use Rattle.p3_formula.specs.declared.target.Weights.{Weights};
ghost use Rattle.p3_formula.specs.declared.task.GroundTask.{GroundTask};
ghost use Rattle.p3_types.specs.Texts.{has_short_numbers};
ghost use Rattle.p3_ground.specs.PlansByNumber.{AreNumbers};
ghost use Rattle.p3_ground.specs.StandsFor.{StandsFor};
ghost use Rattle.p3_metric.specs.Weighed.{HasWeights};
ghost use Rattle.p3_run.specs.Runs.{
  CanBeRun,
  ground_fit,
  ground_metric,
  ground_misfit,
  ground_state,
  ground_total,
  ground_verdict,
  stepped_by,
};
ghost use Rattle.p3_eval.specs.Runs.{fault_of, misfit_of};

/// A ground task that stands for a task of which nothing is refused can be compiled with the
/// weights of the task.
pub fn accepted_tasks_can_be_compiled()
    ensures { (side : Side) (T : Task) (G : GroundTask) (w : Weights) → WellFormed T
        → StandsFor T G → HasWeights T w → task_refusal side T ≡ None → IsReady G w }
{}

/// A ground task that stands for a task with short numbers, of which nothing is refused, can be run
/// with the weights of the task.
pub fn accepted_tasks_can_be_run()
    ensures { (side : Side) (T : Task) (G : GroundTask) (w : Weights) → WellFormed T
        → IsTrue (has_short_numbers side T) → StandsFor T G → HasWeights T w
        → task_refusal side T ≡ None → CanBeRun G w }
{}

/// The steps of a plan fit where their numbers do. The next step then does not fit for the same
/// reason as its number, and is the first fault of each plan that goes on with it; and the whole
/// has the first fault that its numbers show.
pub fn runs_tell_the_first_fault()
    ensures fit { (T : Task) (G : GroundTask) → WellFormed T → StandsFor T G
        → (plan : Plan) (numbers : GroundPlan) → AreNumbers T plan numbers
        → steps_fit T plan ≡ ground_fit G numbers }
    ensures misfit { (T : Task) (G : GroundTask) → WellFormed T → StandsFor T G
        → (plan : Plan) (numbers : GroundPlan) → AreNumbers T plan numbers
        → IsTrue (steps_fit T plan)
        → (step : Step) (number : ℕ) → HasNumber T step number
        → misfit T (last_state (visited T plan)) step
        ≡ misfit_of (stepped_by (ground_misfit G (ground_state G numbers) number)) }
    ensures at_a_step { (T : Task) (plan rest : Plan) (step : Step) (kind : Misfit)
        → IsTrue (steps_fit T plan) → misfit T (last_state (visited T plan)) step ≡ Some kind
        → first_fault T (plan ++ step ∷ rest) ≡ Some (AtStep (length plan + 1) kind) }
    ensures at_the_end { (T : Task) (G : GroundTask) → WellFormed T → StandsFor T G
        → (plan : Plan) (numbers : GroundPlan) → AreNumbers T plan numbers
        → IsTrue (steps_fit T plan) → first_fault T plan ≡ fault_of (ground_verdict G numbers) }
{}

/// A plan whose steps fit costs what their numbers do, and its metric has the same value.
pub fn runs_tell_costs_and_values()
    ensures costs { (T : Task) (G : GroundTask) → WellFormed T → StandsFor T G
        → (plan : Plan) (numbers : GroundPlan) → AreNumbers T plan numbers
        → IsTrue (steps_fit T plan) → cost T plan ≡ ground_total G numbers }
    ensures values { (side : Side) (T : Task) (G : GroundTask) (w : Weights) → WellFormed T
        → StandsFor T G → HasWeights T w → task_refusal side T ≡ None
        → (plan : Plan) (numbers : GroundPlan) → AreNumbers T plan numbers
        → IsTrue (steps_fit T plan) → value T plan ≡ ground_metric G w numbers }
{}
