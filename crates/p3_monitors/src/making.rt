//! Making monitors.

ghost use Rattle.std.specs.Prelude.{◌≡◌, ◌≤◌, ◌+◌, ◌-◌, ◌^◌, ℕ, Bool, List, [], ◌∷◌, length, IfOk};
ghost use Rattle.p3_formula.specs.Forms.{State, truth};
ghost use Rattle.p3_formula.specs.GroundSat.{ground_sat};
ghost use Rattle.p3_formula.specs.Kept.{atom_count, Carries, Kept};
ghost use Rattle.p3_formula.specs.Modals.{IsModalBelow};
ghost use Rattle.p3_monitors.specs.KeepsOn.{Rides, HasAccept};

use crate::accepting::accept_form;
use crate::beginning::initial_bits;
use crate::copying::modal_copied;
use crate::monitoring::Monitor;
use p3_base::NoMemory;
use p3_formula::{Bits, GroundModal};
use std::alloc::Global;

/// The monitor of a constraint, with its own atoms from the base on.
#[tactic(auto, using(crate::proofs::AcceptLaws::accept_sat, crate::proofs::AcceptLaws::accept_truth, crate::proofs::AcceptLaws::accept_atoms, crate::proofs::AcceptLaws::kept_throughout, p3_formula::proofs::WatchedLaws::watched_laws))]
pub fn monitor(
    alloc: Global,
    modal: &GroundModal,
    initial: &Bits,
    base: usize,
) -> Result<Monitor, NoMemory>
    requires below { IsModalBelow base modal.now }
    requires inside { IsModalBelow (length initial.now) modal.now }
    requires room { base + atom_count modal.now ≤ 2 ^ 64 - 1 }
    requires behind { length initial.now ≤ base }
    ensures base { IfOk result (λ made. made.base ≡ base) }
    ensures modal { IfOk result (λ made. made.modal ≡ modal.now) }
    // Its initial bits are right of the initial state alone.
    ensures initial { IfOk result (λ made.
        (state : State) → Carries base made.initial modal.now initial.now state
        → Kept base modal.now (initial.now ∷ []) state) }
    // Where its bits are right, the accept form is satisfaction.
    ensures accepts { IfOk result (λ made.
        (W : List State) (state : State) → Kept base modal.now W state
        → truth state made.accept ≡ ground_sat W modal.now) }
    // So it is after every list of steps, each with its changes.
    ensures satisfied { IfOk result (λ made.
        (W : List State) (state : State) → Rides base modal.now W state
        → truth state made.accept ≡ ground_sat W modal.now) }
    // The accept form reads no atoms but its own and those of the constraint.
    ensures atoms { IfOk result (λ made. HasAccept base modal.now made.accept) }
{
    let initial = initial_bits(alloc, modal, initial)?;
    let accept = accept_form(alloc, modal, base)?;
    let modal = modal_copied(alloc, modal)?;
    Ok(Monitor {
        base,
        initial,
        accept,
        modal,
    })
}
