//! What a monitor says at the initial state.

ghost use Rattle.std.specs.Prelude.{◌≡◌, IfOk, [], ◌∷◌, length};
ghost use Rattle.p3_formula.specs.Forms.{IsBelow};
ghost use Rattle.p3_formula.specs.Kept.{watched};
ghost use Rattle.p3_formula.specs.Modals.{IsModalBelow};

use p3_base::{List, NoMemory};
use p3_formula::{Bits, Form, GroundModal, eval};
use std::alloc::Global;

/// The bits of the monitor where the initial state alone is visited.
pub(crate) fn initial_bits(
    alloc: Global,
    modal: &GroundModal,
    initial: &Bits,
) -> Result<List<bool>, NoMemory>
    requires { IsModalBelow (length initial.now) modal.now }
    ensures { IfOk result (λ bits. bits ≡ watched (initial.now ∷ []) modal.now) }
{
    match modal {
        GroundModal::AtEnd(_) => Ok(List::new(alloc)),
        GroundModal::Always(form) => one(alloc, eval(form, initial)),
        GroundModal::Sometime(form) => one(alloc, eval(form, initial)),
        GroundModal::AtMostOnce(form) => two(alloc, eval(form, initial), false),
        GroundModal::SometimeAfter(first, second) => {
            one(alloc, eval(first, initial) && !eval(second, initial))
        }
        GroundModal::SometimeBefore(first, second) => {
            two(alloc, eval(second, initial), eval(first, initial))
        }
    }
}

/// One bit.
fn one(alloc: Global, bit: bool) -> Result<List<bool>, NoMemory>
    ensures { IfOk result (λ bits. bits ≡ bit ∷ []) }
{
    let mut bits = List::new(alloc);
    bits.push(bit)?;
    Ok(bits)
}

/// Two bits.
fn two(alloc: Global, first: bool, second: bool) -> Result<List<bool>, NoMemory>
    ensures { IfOk result (λ bits. bits ≡ first ∷ second ∷ []) }
{
    let mut bits = List::new(alloc);
    bits.push(first)?;
    bits.push(second)?;
    Ok(bits)
}
