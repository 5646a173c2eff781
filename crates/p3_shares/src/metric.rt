//! What the metric of a plan is made of.

ghost use Rattle.std.specs.Prelude.{◌≡◌, ◌≤◌, None, length, IfOk};
ghost use Rattle.p3_task.specs.Metrics.{metric_places as places_of};
ghost use Rattle.p3_task.specs.Refusals.First.{task_refusal};
ghost use Rattle.p3_reports.specs.Contents.{IsQuantity};
ghost use Rattle.p3_accounts.specs.Shares.{AreShares};
ghost use Rattle.p3_run.specs.Runs.{begun, most_steps};
ghost use Rattle.p3_eval.specs.Runs.{OfRun};
ghost use Rattle.p3_shares.specs.Adding.{AddsUp};
ghost use Rattle.p3_shares.specs.Sharing.{AreFound, CanShare, IsRunOfPlan};

use crate::cost::cost_share;
use crate::loss::loss_of;
use crate::names::{bounded, name_shares};
use p3_accounts::Shares;
use p3_base::NoMemory;
use p3_eval::{Grounded, Run};
use p3_metric::metric_places;
use p3_reports::Quantity;
use p3_types::Checked;
use std::alloc::Global;

/// Gives what the metric of the plan is made of whose steps a run has done, all of which fit. It
/// takes the time of the preference names.
///
/// # Errors
///
/// Want of memory.
pub fn shares_of(alloc: Global, grounded: &Grounded<'_>, run: &Run<'_>) -> Result<Shares, NoMemory>
    requires few { length run.now.plan ≤ most_steps }
    requires done { IsRunOfPlan grounded.now.checked.now.task
        (begun grounded.now.ground_task.now grounded.now.weights.now) run.now }
    ensures are { IfOk result (λ shares. OfRun grounded.now.checked.now.task run.now
        (λ plan. AreShares grounded.now.checked.now.numbered.numbers
        grounded.now.checked.now.task plan shares)) }
    ensures adds_up { IfOk result (AddsUp grounded.now.checked.now.task) }
{
    let by_name = bounded(grounded.weights().by_name.items());
    shares_by(alloc, grounded, run, by_name)
}

/// Gives the same, by the weights of the names.
fn shares_by(
    alloc: Global,
    grounded: &Grounded<'_>,
    run: &Run<'_>,
    by_name: &[u64],
) -> Result<Shares, NoMemory>
    requires can { CanShare grounded.now run.now }
    requires weights { by_name.now ≡ run.now.weights.by_name }
    ensures { IfOk result (AreFound grounded.now.checked.now.task run.now) }
{
    let checked = grounded.checked();
    let names = name_shares(alloc, grounded, run, by_name)?;
    Ok(Shares {
        places: metric_places(checked),
        cost_places: checked.cost_places(),
        base: in_metric(checked, grounded.weights().base),
        names,
        cost: cost_share(grounded, run),
        loss: in_metric(checked, loss_of(grounded, run)),
        metric: in_metric(checked, run.metric()),
    })
}

/// Gives so many units of the metric with its places.
fn in_metric(checked: &Checked, units: i128) -> Quantity
    requires { task_refusal checked.now.side checked.now.task ≡ None }
    ensures { IsQuantity result (places_of checked.now.task) units }
{
    Quantity {
        places: metric_places(checked),
        units,
    }
}
