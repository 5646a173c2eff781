//! The first of what was found in a task.

ghost use Rattle.std.specs.Prelude.{◌≡◌, option_map, IfOk};
ghost use Rattle.std.specs.Option.{option_or};
ghost use Rattle.p3_task.specs.Sides as sides;
ghost use Rattle.p3_resolve.specs.Order;
ghost use Rattle.p3_resolve.specs.Order.{refusal_at_spot};

use crate::spot::{FirstOffences, Spot};
use p3_base::{Code, NoMemory, Pos, Refusal, Role, Side, as_number};

/// The refusal that stands first.
fn earlier(first: Option<Refusal>, other: Option<Refusal>) -> Option<Refusal>
    ensures { result ≡ option_or first other }
{
    match first {
        None => other,
        Some(refusal) => Some(refusal),
    }
}

/// The refusal of a word.
fn refusal_at(code: Code, role: Role, spot: Option<Spot>) -> Result<Option<Refusal>, NoMemory>
    ensures { IfOk result (λ refusal. refusal ≡ option_map (refusal_at_spot code role) spot) }
{
    let Some(spot) = spot else {
        return Ok(None);
    };
    let len = as_number(spot.len)?;
    Ok(Some(Refusal {
        code,
        pos: Pos {
            role,
            offset: spot.at,
        },
        len,
    }))
}

/// The domain of a task of that side.
fn domain_role(side: Side) -> Role
    ensures { result ≡ sides.role_of side sides.InDomain }
{
    match side {
        Side::Source => Role::Domain,
        Side::Written => Role::WrittenDomain,
    }
}

/// The problem of a task of that side.
fn problem_role(side: Side) -> Role
    ensures { result ≡ sides.role_of side sides.InProblem }
{
    match side {
        Side::Source => Role::Problem,
        Side::Written => Role::WrittenProblem,
    }
}

/// The refusal of one kind: the domain's before the problem's.
fn of_kind(
    side: Side,
    code: Code,
    domain: Option<Spot>,
    problem: Option<Spot>,
) -> Result<Option<Refusal>, NoMemory>
    ensures { IfOk result
        (λ first. first ≡ option_or
        (option_map (refusal_at_spot code (sides.role_of side sides.InDomain)) domain)
        (option_map (refusal_at_spot code (sides.role_of side sides.InProblem)) problem)) }
{
    let first = refusal_at(code, domain_role(side), domain)?;
    let other = refusal_at(code, problem_role(side), problem)?;
    Ok(earlier(first, other))
}

/// The first of what was found: a second declaration, an unknown name, a wrong number of
/// arguments, an argument that does not fit.
pub(crate) fn in_order(
    side: Side,
    domain: &FirstOffences,
    problem: &FirstOffences,
) -> Result<Option<Refusal>, NoMemory>
    ensures { IfOk result
        (λ first. first ≡ Order.in_order side domain.now problem.now) }
{
    let duplicate = of_kind(side, Code::Duplicate, domain.duplicate, problem.duplicate)?;
    let unknown = of_kind(side, Code::Unknown, domain.unknown, problem.unknown)?;
    let miscount = of_kind(side, Code::Arity, domain.miscount, problem.miscount)?;
    let clash = of_kind(side, Code::TypeClash, domain.clash, problem.clash)?;
    Ok(earlier(duplicate, earlier(unknown, earlier(miscount, clash))))
}
