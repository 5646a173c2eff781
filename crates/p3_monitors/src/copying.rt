//! Copies of trajectory constraints.

ghost use Rattle.std.specs.Prelude.{◌≡◌, IfOk};

use p3_base::{NoMemory, Operands};
use p3_formula::{GroundModal, copied};
use std::alloc::Global;

/// The same operator over the same forms.
pub(crate) fn modal_copied(alloc: Global, modal: &GroundModal) -> Result<GroundModal, NoMemory>
    ensures { IfOk result (λ copy. copy ≡ modal.now) }
{
    match modal.operands() {
        Operands::One(kind, form) => Ok(kind.over(copied(alloc, form)?)),
        Operands::Two(kind, first, second) => {
            let first = copied(alloc, first)?;
            Ok(kind.over(first, copied(alloc, second)?))
        }
    }
}
