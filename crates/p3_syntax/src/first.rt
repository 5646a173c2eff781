//! The first refusal that a half's text shows by itself.

ghost use Rattle.std.specs.Prelude.{◌≡◌, ◌≢◌, ◌≤◌, length, IfOk, IfErr};
ghost use Rattle.p3_base.specs.declared.refusal.Role.TheVariants.{Plan};
ghost use Rattle.p3_base.specs.declared.refusal.Side.TheVariants.{Written};
ghost use Rattle.p3_task.specs.Refusals.First.{IsReadable};
ghost use Rattle.p3_task.specs.Sides.{byte_limit};
ghost use Rattle.p3_places.specs.Searches.{half_of, HasTree};
ghost use Rattle.p3_outline.specs.Nodes.{root_of};
ghost use Rattle.p3_outline.specs.Outlines.{IsOutline};
ghost use Rattle.p3_syntax.specs.First.{IsFirstOf, StandsIn, half_text, Decides};

use p3_base::{Refusal, Role};
use p3_outline::{Outline, ReadFail, first_shown, outline};
use std::alloc::Global;

/// The first refusal of a text with an outline: one that it shows by itself, or else the token where
/// it leaves the grammar.
#[tactic(auto, using(p3_outline::proofs::PlaceLemmas::shown_within, crate::proofs::FirstLemmas::decided_last))]
fn refusal_of(role: Role, outline: &Outline<'_>, text: &[u8]) -> Option<Refusal>
    requires of_a_task { role ≢ Plan }
    requires short { length text.now ≤ byte_limit Written }
    requires outline { IsOutline role text.now outline.now }
    ensures { Decides role text.now (root_of outline.now) result }
{
    match first_shown(role, outline, text) {
        Some(refusal) => Some(refusal),
        None => outline.fault(),
    }
}

/// The outline of a half's text, where the half has a tree. Else the first refusal of the text: a
/// foreign byte, parentheses that do not fit, a list too deep, a construct that is left out by
/// name, a number too long, or the token where the text leaves the grammar, in this order.
#[tactic(auto, using(p3_outline::proofs::PlaceLemmas::shown_within))]
pub(crate) fn readable<'a>(
    alloc: Global,
    role: Role,
    text: &'a [u8],
) -> Result<Outline<'a>, ReadFail>
    requires of_a_task { role ≢ Plan }
    requires short { length text.now ≤ byte_limit Written }
    ensures outline { IfOk result (λ outline. IsOutline role text.now outline) }
    ensures tree { IfOk result (λ outline. HasTree (half_of role) (root_of outline)) }
    ensures readable { IfOk result (λ _. IsReadable (half_text role text.now)) }
    ensures refused { IfErr result (IsFirstOf (half_text role text.now)) }
    // It names the file, and the word at fault stands in the text.
    ensures place { IfErr result (StandsIn role text.now) }
{
    let outline = outline(alloc, role, text)?;
    match refusal_of(role, &outline, text) {
        None => Ok(outline),
        Some(refusal) => Err(ReadFail::Refused(refusal)),
    }
}
