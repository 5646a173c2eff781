//! The outline of a text.

ghost use Rattle.std.specs.Prelude.{◌≡◌, ◌≢◌, ◌≤◌, length, IfOk, IfErr, Some, None};
ghost use Rattle.p3_base.specs.declared.refusal.Role.TheVariants.{Plan};
ghost use Rattle.p3_base.specs.declared.refusal.Side.TheVariants.{Written};
ghost use Rattle.p3_task.specs.Expressions.{expression_of_text};
ghost use Rattle.p3_task.specs.Sides.{level_limit, byte_limit};
ghost use Rattle.p3_task.specs.Refusals.Texts.{text_refusal};
ghost use Rattle.p3_places.specs.Searches.{side_of, half_of};
ghost use Rattle.p3_outline.specs.Balances.{balance_refusal, outline_refusal};
ghost use Rattle.p3_outline.specs.Outlines.{IsOutline};
ghost use Rattle.p3_outline.specs.Texts.{IfRefused};

use crate::balance::first_refusal;
use crate::build::{Nodes, build};
use crate::error::ReadFail;
use crate::view::Outline;
use p3_base::{Code, Pos, Refusal, Role};
use std::alloc::Global;

/// How deep lists may stand inside one another.
fn level_limit(role: Role) -> u32
    ensures { result ≡ level_limit (side_of role) }
{
    match role {
        Role::Domain | Role::Problem | Role::Plan => 200,
        Role::WrittenDomain | Role::WrittenProblem => 1000,
    }
}

/// What is refused of a text that has no nodes.
fn why_none(role: Role, limit: u32, text: &[u8]) -> Refusal
    requires none { expression_of_text limit text.now ≡ None }
    requires short { length text.now ≤ byte_limit Written }
    ensures { balance_refusal role limit text.now ≡ Some result }
{
    match first_refusal(role, limit, text) {
        Some(refusal) => refusal,
        // Parentheses that fit have nodes.
        None => Refusal {
            code: Code::Unbalanced,
            pos: Pos { role, offset: 0 },
            len: 0,
        },
    }
}

/// The outline of a domain's or a problem's text. A foreign byte, parentheses that do not fit, or a
/// list too deep are refused, in this order, each at its least offset.
#[tactic(auto, using(crate::proofs::SoundLemmas::first_shown))]
pub fn outline<'a>(alloc: Global, role: Role, text: &'a [u8]) -> Result<Outline<'a>, ReadFail>
    requires of_a_task { role ≢ Plan }
    requires short { length text.now ≤ byte_limit Written }
    ensures outline { IfOk result (λ outline. IsOutline role text.now outline) }
    ensures refused { IfErr result (λ fail.
        IfRefused fail (λ refusal. outline_refusal role text.now ≡ Some refusal)) }
    // It is the first refusal that the text shows by itself.
    ensures first { IfErr result (λ fail.
        IfRefused fail (λ refusal.
        text_refusal (side_of role) (half_of role) text.now ≡ Some refusal)) }
{
    let limit = level_limit(role);
    match build(alloc, role, text, limit as usize) {
        Ok(
            Some(
                Nodes {
                    nodes,
                    number,
                    fault,
                },
            ),
        ) => Ok(Outline {
            text,
            nodes,
            number,
            fault,
        }),
        Ok(None) => Err(ReadFail::Refused(why_none(role, limit, text))),
        Err(_) => Err(ReadFail::NoMemory),
    }
}
