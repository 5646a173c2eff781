//! Refusals at words of a task.

ghost use Rattle.std.specs.Prelude.{◌≡◌, ◌≤◌, ◌^◌, length, IfOk, OnErr};
ghost use Rattle.std.specs.Result.{MatchResult};
ghost use Rattle.p3_task.specs.Refusals.Places as places;
ghost use Rattle.p3_task.specs.Sides.{InDomain, InProblem, role_of, size_limit as limit_of};
ghost use Rattle.p3_limits.specs.Least as least;

use p3_base::{Code, Name, Pos, Refusal, Role, Side, TooLarge, as_number};
use p3_task::Ref;

/// The domain of the side.
pub fn domain_role(side: Side) -> Role
    ensures { result ≡ role_of side InDomain }
{
    match side {
        Side::Source => Role::Domain,
        Side::Written => Role::WrittenDomain,
    }
}

/// The problem of the side.
pub fn problem_role(side: Side) -> Role
    ensures { result ≡ role_of side InProblem }
{
    match side {
        Side::Source => Role::Problem,
        Side::Written => Role::WrittenProblem,
    }
}

/// The greatest expanded size of one part of a task of the side.
pub(crate) fn size_limit(side: Side) -> u64
    ensures { result ≡ limit_of side }
{
    match side {
        Side::Source => 1_000_000,
        Side::Written => 50_000_000,
    }
}

/// The refusal at a word of so many bytes.
pub fn refusal_at(code: Code, role: Role, at: u32, len: u32) -> Refusal
    ensures { result ≡ places.refusal_at code role at len }
{
    Refusal {
        code,
        pos: Pos { role, offset: at },
        len,
    }
}

/// How many bytes a name has.
///
/// # Errors
///
/// `TooLarge` exactly from 2 ^ 32 bytes on.
pub fn name_len(name: &Name) -> Result<u32, TooLarge>
    ensures { MatchResult result (λ len. len ≡ length name.now) (λ _. 2 ^ 32 ≤ length name.now) }
{
    as_number(name.bytes().len())
}

/// The refusal at a name.
pub(crate) fn refusal_at_name(code: Code, role: Role, name: &Ref) -> Result<Refusal, TooLarge>
    ensures refusal { IfOk result (λ refusal. refusal ≡ places.refusal_at_word code role name.now) }
    ensures long { OnErr result (2 ^ 32 ≤ length name.now.name) }
{
    let len = name_len(&name.name)?;
    Ok(refusal_at(code, role, name.at, len))
}

/// That of least offset, the first where offsets are equal.
pub(crate) fn with_least(found: Option<Refusal>, refusal: Refusal) -> Option<Refusal>
    ensures { result ≡ least.with_least found refusal }
{
    match found {
        None => Some(refusal),
        Some(least) => {
            if refusal.pos.offset < least.pos.offset {
                Some(refusal)
            } else {
                Some(least)
            }
        }
    }
}
