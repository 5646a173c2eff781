//! What the preference names add to the loss of a run.

ghost use Rattle.std.specs.Prelude.{◌≡◌, ◌<◌, ◌^◌, length, IfOk};
ghost use Rattle.std.specs.List.{All, AllZip, range_with_len};
ghost use Rattle.p3_shares.specs.Sharing.{CanShare, IsShareAt};

use p3_accounts::NameShare;
use p3_base::{List, NoMemory};
use p3_eval::{Grounded, Run};
use std::alloc::Global;

/// The weights, each of 64 bits.
pub(crate) fn bounded(by_name: &[u64]) -> &[u64]
    ensures are { result.now ≡ by_name.now }
    ensures small { All (λ weight. weight < 2 ^ 64) by_name.now }
{
    by_name
}

/// Gives what each preference name adds, by the weights of the names.
pub(crate) fn name_shares(
    alloc: Global,
    grounded: &Grounded<'_>,
    run: &Run<'_>,
    by_name: &[u64],
) -> Result<List<NameShare>, NoMemory>
    requires can { CanShare grounded.now run.now }
    requires weights { by_name.now ≡ run.now.weights.by_name }
    ensures { IfOk result
        (AllZip (IsShareAt run.now) (range_with_len 0 (length run.now.weights.by_name))) }
{
    let mut shares = List::new(alloc);
    for number in 0..grounded.checked().names() {
        shares.push(name_share(grounded, run, by_name, number))?;
    }
    Ok(shares)
}

/// Gives what the name of a number adds.
fn name_share(grounded: &Grounded<'_>, run: &Run<'_>, by_name: &[u64], number: u32) -> NameShare
    requires can { CanShare grounded.now run.now }
    requires weights { by_name.now ≡ run.now.weights.by_name }
    requires named { number < length run.now.weights.by_name }
    ensures { IsShareAt run.now number result }
{
    NameShare {
        name: number,
        weight: by_name[number as usize],
        count: run.violations(number),
    }
}
