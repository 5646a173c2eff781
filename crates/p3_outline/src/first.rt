//! The first refusal that a text with an outline shows by itself.

ghost use Rattle.std.specs.Prelude.{◌≡◌, ◌≢◌, ◌≤◌, length, Some};
ghost use Rattle.std.specs.Option.{option_or};
ghost use Rattle.p3_base.specs.declared.refusal.Role.TheVariants.{Plan};
ghost use Rattle.p3_base.specs.declared.refusal.Side.TheVariants.{Written};
ghost use Rattle.p3_task.specs.Refusals.Texts.{construct_in, text_refusal};
ghost use Rattle.p3_task.specs.Sides.{byte_limit};
ghost use Rattle.p3_places.specs.Searches.{side_of, half_of};
ghost use Rattle.p3_outline.specs.Nodes.{root_of};
ghost use Rattle.p3_outline.specs.Outlines.{IsOutline};

use crate::constructs::first_construct;
use crate::view::Outline;
use p3_base::{Refusal, Role};

/// The first word of a construct that is left out by name, or else the first number too long.
fn first_left_out(role: Role, outline: &Outline<'_>) -> Option<Refusal>
    ensures { result
        ≡ option_or (construct_in role (Some (root_of outline.now))) outline.now.number }
{
    match first_construct(role, outline.root()) {
        Some(refusal) => Some(refusal),
        None => outline.number,
    }
}

/// Finds the first refusal that a text with an outline shows by itself: the first word of a
/// construct that is left out by name, or else the first number too long.
pub fn first_shown(role: Role, outline: &Outline<'_>, text: &[u8]) -> Option<Refusal>
    requires of_a_task { role ≢ Plan }
    requires short { length text.now ≤ byte_limit Written }
    requires outline { IsOutline role text.now outline.now }
    ensures { result ≡ text_refusal (side_of role) (half_of role) text.now }
{
    first_left_out(role, outline)
}
