//! The loss of a run.

ghost use Rattle.std.specs.Prelude.{◌≡◌};
ghost use Rattle.p3_shares.specs.Sharing.{CanShare, loss_by};

use p3_base::Direction;
use p3_eval::{Grounded, Run};

/// Gives the loss, which is to be small in either direction.
pub(crate) fn loss_of(grounded: &Grounded<'_>, run: &Run<'_>) -> i128
    requires { CanShare grounded.now run.now }
    ensures { result ≡ loss_by run.now }
{
    let value = run.metric();
    match grounded.weights().direction {
        Direction::Minimize => value,
        Direction::Maximize => -value,
    }
}
