//! The atoms that are true at the start.

ghost use Rattle.std.specs.Prelude.{◌≡◌, ◌<◌, ℕ, List, length, slice_get, slice_set, Some, bytes_eq, OnOk, IfOk};
ghost use Rattle.std.specs.List.{list_any};
ghost use Rattle.p3_expansion.specs.Statics.{atom_of, start_atoms as atoms_of, start_bits};

use crate::{Atoms, Statics};
use p3_base::NoMemory;
use p3_formula::Bits;
use p3_numbers::{NumberedFact, NumberedTask};
use std::alloc::Global;

/// Puts the atom of a fact in the place of the words.
fn spell_fact(words: &mut Vec<u32>, fact: &NumberedFact) -> Result<(), NoMemory>
    ensures { OnOk result (words.new.items ≡ atom_of fact.now) }
{
    words.clear();
    words.push(fact.predicate)?;
    words.extend_from_slice(fact.objects.items())?;
    Ok(())
}

/// The atoms that are true at the start of a task.
pub(crate) fn start_atoms(alloc: Global, task: &NumberedTask) -> Result<Atoms, NoMemory>
    ensures { IfOk result (λ atoms. atoms ≡ atoms_of task.now) }
{
    let mut atoms = Atoms::new(alloc);
    let mut words = Vec::new(alloc);
    for fact in task.start.items() {
        spell_fact(&mut words, fact)?;
        atoms.number_of(alloc, words.as_slice())?;
    }
    Ok(atoms)
}

/// Sets the bit of an atom that is true at the start, and clears that of another.
fn note_bit(bits: &mut Bits, statics: &Statics, atoms: &Atoms, number: usize)
    requires { number < length bits.old }
    ensures { (atom : List ℕ) → slice_get atoms.now number ≡ Some atom
        → bits.new ≡ slice_set bits.old number (list_any (bytes_eq atom) statics.now.facts) }
{
    if let Some(atom) = atoms.get(number) {
        let holds = statics.facts.has(atom);
        bits.set(number, holds);
    }
}

/// For each atom whether it is true at the start.
pub fn initial_bits(alloc: Global, statics: &Statics, atoms: &Atoms) -> Result<Bits, NoMemory>
    ensures { IfOk result (λ bits. bits ≡ start_bits statics.now atoms.now) }
{
    let count = atoms.len();
    let mut bits = Bits::new(alloc, count)?;
    for number in 0..count {
        note_bit(&mut bits, statics, atoms, number);
    }
    Ok(bits)
}
