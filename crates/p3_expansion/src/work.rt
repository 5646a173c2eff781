//! The atoms that have numbers.

ghost use Rattle.std.specs.Prelude.{◌≡◌, [], ◌∷◌, slice_get, Some, ◌==◌, OnOk, IfOk, IsTrue};
ghost use Rattle.p3_formula.specs.Tidy.{is_tidy};
ghost use Rattle.p3_numbers.specs.Slots.{value_of as meaning_of};
ghost use Rattle.p3_numbers.specs.declared.numbers.Numbers.{Numbers as AllNumbers};
ghost use Rattle.p3_expansion.specs.Atoms.{atom_at};
ghost use Rattle.p3_expansion.specs.Expansions.{Grows, Stands};
ghost use Rattle.p3_expansion.specs.Meanings.{atom_meaning};
ghost use Rattle.p3_expansion.specs.declared.statics.Statics.{Statics as AllStatics};

use crate::Atoms;
use p3_base::NoMemory;
use p3_formula::Form;
use p3_numbers::NumberedArgument;
use std::alloc::Global;

/// The atoms that have numbers so far.
#[derive(Drop)]
pub struct Work {
    /// Where memory comes from.
    pub alloc: Global,
    /// The atoms.
    pub atoms: Atoms,
    /// The atom that is looked up.
    pub(crate) words: Vec<u32>,
}

impl Work {
    /// No atom.
    pub fn new(alloc: Global) -> Work
        ensures atoms { result.atoms ≡ [] }
    {
        Work {
            alloc,
            atoms: Atoms::new(alloc),
            words: Vec::new(alloc),
        }
    }

    /// Puts a predicate and what its arguments mean into the words.
    #[tactic(auto, using(crate::proofs::GrowthLemmas::growth_laws))]
    pub(crate) fn spell(
        &mut self,
        slots: &[u32],
        predicate: u32,
        args: &[NumberedArgument],
    ) -> Result<(), NoMemory>
        ensures words { OnOk result (self.new.words.items ≡ atom_at slots.now predicate args.now) }
        ensures grows { Grows [] self.old self.new }
    {
        spell(&mut self.words, slots, predicate, args)?;
        Ok(())
    }

    /// The number of the atom that the words spell.
    #[tactic(auto, using(crate::proofs::GrowthLemmas::growth_laws))]
    pub(crate) fn atom_number(&mut self) -> Result<usize, NoMemory>
        ensures grows { OnOk result (Grows (self.old.words.items ∷ []) self.old self.new) }
        ensures stored { IfOk result (λ number. slice_get self.new.atoms number
            ≡ Some self.old.words.items) }
    {
        let atom = self.atoms.number_of(self.alloc, self.words.as_slice())?;
        Ok(atom)
    }

    /// The form of the atom that the words spell.
    pub(crate) fn atom_form(&mut self) -> Result<Form, NoMemory>
        ensures grows { OnOk result (Grows (self.old.words.items ∷ []) self.old self.new) }
        ensures stands { IfOk result (λ form. (N : AllNumbers) (S : AllStatics) → Stands N S
            self.new.atoms (atom_meaning N self.old.words.items) form) }
        ensures tidy { IfOk result (λ form. IsTrue (is_tidy form)) }
    {
        let atom = self.atom_number()?;
        Ok(Form::Atom(atom))
    }
}

/// The object that an argument means.
fn value_of(slots: &[u32], argument: NumberedArgument) -> u32
    ensures { result ≡ meaning_of slots.now argument }
{
    match argument {
        NumberedArgument::Slot(place) => match slots.get(place as usize) {
            Some(object) => *object,
            None => 0,
        },
        NumberedArgument::Object(object) => object,
    }
}

/// Whether two arguments mean the same object.
pub fn are_same(slots: &[u32], left: NumberedArgument, right: NumberedArgument) -> bool
    ensures { result ≡ (meaning_of slots.now left == meaning_of slots.now right) }
{
    value_of(slots, left) == value_of(slots, right)
}

/// Puts a predicate and what its arguments mean in the place of the words.
pub fn spell(
    words: &mut Vec<u32>,
    slots: &[u32],
    predicate: u32,
    args: &[NumberedArgument],
) -> Result<(), NoMemory>
    ensures { OnOk result (words.new.items ≡ atom_at slots.now predicate args.now) }
{
    words.clear();
    words.push(predicate)?;
    for arg in args {
        words.push(value_of(slots, *arg))?;
    }
    Ok(())
}
