//! Numbers that are too large for the type that is to hold them.

ghost use Rattle.std.specs.Prelude.{◌≡◌, ◌≤◌, ◌^◌, ⊤};
ghost use Rattle.std.specs.Result.{MatchResult};

use crate::error::NoMemory;
use thiserror::Error;

/// A number is too large for the type that is to hold it.
#[derive(Clone, Copy, Debug, PartialEq, Eq, Error)]
#[error("too large a number")]
pub struct TooLarge;

/// No text within the limits has such a number, so none comes where there is memory for what is
/// counted. Where it came all the same, a command would answer as where memory is wanting.
impl From<TooLarge> for NoMemory {
    ghost from_gives = { λ _ _. ⊤ };

    fn from(_error: TooLarge) -> NoMemory {
        NoMemory
    }
}

/// Tells a count or a place as a number of 32 bits.
///
/// # Errors
///
/// `TooLarge` exactly from 2 ^ 32 on.
pub fn as_number(count: usize) -> Result<u32, TooLarge>
    ensures { MatchResult result (λ number. number ≡ count) (λ _. 2 ^ 32 ≤ count) }
{
    match u32::try_from(count) {
        Ok(number) => Ok(number),
        Err(_) => Err(TooLarge),
    }
}
