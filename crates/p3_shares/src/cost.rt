//! What the total cost adds to the loss of a run.

ghost use Rattle.p3_shares.specs.Sharing.{CanShare, IsCostShare};

use p3_accounts::CostShare;
use p3_eval::{Grounded, Run};

/// Gives what the growth of the total cost adds.
pub(crate) fn cost_share(grounded: &Grounded<'_>, run: &Run<'_>) -> CostShare
    requires { CanShare grounded.now run.now }
    ensures { IsCostShare run.now result }
{
    let start = u128::from(grounded.ground_task().initial_cost);
    CostShare {
        weight: grounded.weights().total_cost,
        growth: run.total_cost().unsigned_abs() - start,
    }
}
