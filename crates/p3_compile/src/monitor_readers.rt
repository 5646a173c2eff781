//! Which monitors read an atom, and where in their constraints.

ghost use Rattle.std.specs.Prelude.{◌≡◌, ◌++◌, length, map, IfOk, OnOk};
ghost use Rattle.std.specs.List.Sorted.{IsPermutation};
ghost use Rattle.p3_regress.specs.Readers.{AreRising, reader};
ghost use Rattle.p3_compile.specs.Readers.{AreByAtom, read_atoms, readers_of};

use p3_base::{NoMemory, Operands};
use p3_formula::GroundModal;
use p3_monitors::{FormsByAtom, Monitor};
use p3_regress::{PartReader, by_rising_atom, push_readers};
use std::alloc::Global;

/// The monitor at the place reads the atoms of its constraint, where it has atoms of its own that
/// say something of the states before the last one.
#[tactic(auto, using(p3_base::proofs::OperatorLaws::joined_unary, p3_base::proofs::OperatorLaws::joined_binary))]
fn push_modal(
    readers: &mut Vec<PartReader>,
    modal: &GroundModal,
    place: usize,
) -> Result<(), NoMemory>
    ensures { OnOk result (readers.new.items
        ≡ readers.old.items ++ map (reader place) (read_atoms modal.now)) }
{
    if modal.is_at_end() {
        return Ok(());
    }
    match modal.operands() {
        Operands::One(_, form) => push_readers(readers, form, place),
        Operands::Two(_, first, second) => {
            push_readers(readers, first, place)?;
            push_readers(readers, second, place)
        }
    }
}

/// The atoms that the monitors read, by rising atom.
pub(crate) fn readers(alloc: Global, monitors: &[Monitor]) -> Result<Vec<PartReader>, NoMemory>
    ensures same { IfOk result (λ readers.
        IsPermutation (readers_of monitors.now) readers.items) }
    ensures rising { IfOk result (λ readers. AreRising readers.items) }
{
    let mut readers = Vec::new(alloc);
    for place in 0..monitors.len() {
        push_modal(&mut readers, &monitors[place].modal, place)?;
    }
    by_rising_atom(readers)
}

/// The parts of the forms of each monitor by the atoms that they read.
pub(crate) fn all_by_atom(alloc: Global, monitors: &[Monitor]) -> Result<Vec<FormsByAtom>, NoMemory>
    ensures { IfOk result (λ all. AreByAtom monitors.now all.items) }
{
    let mut all = Vec::with_capacity(alloc, monitors.len())?;
    for monitor in monitors {
        all.push(monitor.by_atom(alloc)?)?;
    }
    Ok(all)
}
