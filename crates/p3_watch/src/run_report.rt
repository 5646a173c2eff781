//! What is found of a run, as reports and lines want it.

ghost use Rattle.std.specs.Prelude.{◌≡◌, None, pos};
ghost use Rattle.p3_task.specs.Costs.{cost_places as places_of_costs};
ghost use Rattle.p3_task.specs.Metrics.{cost, metric_places as places_of};
ghost use Rattle.p3_task.specs.Refusals.First.{task_refusal};
ghost use Rattle.p3_reports.specs.Faults.{fault_named};
ghost use Rattle.p3_reports.specs.Contents.{IsQuantity};
ghost use Rattle.p3_eval.specs.Judged.{fault_in};
ghost use Rattle.p3_eval.specs.Runs.{BelongTogether, OfRun};

use p3_eval::{FaultKind, PlanFault, Run};
use p3_metric::metric_places;
use p3_reports::{Fault, Misfit, Quantity};
use p3_types::Checked;

/// Gives what the steps of a run cost.
pub fn cost_of(checked: &Checked, run: &Run<'_>) -> Quantity
    requires { BelongTogether checked.now.task run.now.task run.now.weights }
    ensures { OfRun checked.now.task run.now (λ plan. IsQuantity result
        (places_of_costs checked.now.task) (pos (cost checked.now.task plan))) }
{
    Quantity {
        places: checked.cost_places(),
        units: run.total_cost(),
    }
}

/// Gives a value of the metric with its places.
pub fn metric_of(checked: &Checked, value: i128) -> Quantity
    requires { task_refusal checked.now.side checked.now.task ≡ None }
    ensures { IsQuantity result (places_of checked.now.task) value }
{
    Quantity {
        places: metric_places(checked),
        units: value,
    }
}

/// Names the first fault of a plan.
pub fn named_fault(fault: &PlanFault) -> Fault
    ensures { result ≡ fault_named (fault_in fault.now) }
{
    match fault.kind {
        FaultKind::UnknownAction => Fault::AtStep(fault.step, Misfit::UnknownAction),
        FaultKind::Arguments => Fault::AtStep(fault.step, Misfit::Arguments),
        FaultKind::Precondition => Fault::AtStep(fault.step, Misfit::Precondition),
        FaultKind::NoCost => Fault::AtStep(fault.step, Misfit::NoCost),
        FaultKind::Goal => Fault::AtGoal,
        FaultKind::Unmet(place) => Fault::AtConstraint(place),
    }
}
