//! When a monitor accepts.

ghost use Rattle.std.specs.Prelude.{◌≡◌, ◌≤◌, ◌+◌, ◌-◌, ◌^◌, IfOk};
ghost use Rattle.p3_formula.specs.Kept.{atom_count};
ghost use Rattle.p3_monitors.specs.Updates as made;

use p3_base::NoMemory;
use p3_formula::{Form, GroundModal, copied};
use std::alloc::Global;

/// The form that holds where the monitor accepts.
pub(crate) fn accept_form(alloc: Global, modal: &GroundModal, base: usize) -> Result<Form, NoMemory>
    requires { base + atom_count modal.now ≤ 2 ^ 64 - 1 }
    ensures { IfOk result (λ form. form ≡ made.accept_form base modal.now) }
{
    match modal {
        GroundModal::AtEnd(form) => copied(alloc, form),
        GroundModal::Always(_) | GroundModal::Sometime(_) => Ok(Form::Atom(base)),
        GroundModal::SometimeAfter(_, _) => Form::negation(alloc, Form::Atom(base)),
        GroundModal::AtMostOnce(_) | GroundModal::SometimeBefore(_, _) => {
            Form::negation(alloc, Form::Atom(base + 1))
        }
    }
}
