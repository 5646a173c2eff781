//! The parts of a conjunction or a disjunction by the atoms that they read.

ghost use Rattle.std.specs.Prelude.{◌≡◌, ℕ, IfOk, false, map};
ghost use Rattle.std.specs.List.Sorted.{IsNonDecreasing};
ghost use Rattle.p3_formula.specs.AtomLists.{atoms_of};
ghost use Rattle.p3_regress.specs.Parts.{IndexesParts, parts_of};
ghost use Rattle.p3_regress.specs.Readers.{is_read_at, mentions, readers_from};
ghost use Rattle.p3_regress.specs.Sorted.{lent};

use crate::readers::{PartReader, PartsByAtom, by_rising_atom, places_read, push_readers};
use p3_base::NoMemory;
use p3_formula::{Change, Form};
use std::alloc::Global;

/// The most parts that are looked at one by one.
const FEW: usize = 8;

/// The parts of a conjunction or a disjunction, and none of another form.
fn parts_of(form: &Form) -> &[Form]
    ensures { result.now ≡ parts_of form.now }
{
    match form {
        Form::And(parts) | Form::Or(parts) => parts.items(),
        Form::True | Form::False | Form::Atom(_) | Form::Not(_) => &[],
    }
}

/// Which of the parts read an atom.
fn readers(alloc: Global, parts: &[Form]) -> Result<Vec<PartReader>, NoMemory>
    ensures { IfOk result (λ readers. readers.items ≡ readers_from 0 (map atoms_of parts.now)) }
{
    let mut readers = Vec::new(alloc);
    for place in 0..parts.len() {
        push_readers(&mut readers, &parts[place], place)?;
    }
    Ok(readers)
}

impl PartsByAtom {
    /// Nothing is listed. It takes no memory.
    pub fn none(alloc: Global) -> PartsByAtom
        ensures { result.listed ≡ false }
    {
        PartsByAtom {
            listed: false,
            readers: Vec::new(alloc),
        }
    }

    /// The parts of the form by the atoms that they read, where they are more than a few.
    pub fn of(alloc: Global, form: &Form) -> Result<PartsByAtom, NoMemory>
        ensures { IfOk result (IndexesParts form.now) }
    {
        let parts = parts_of(form);
        if parts.len() <= FEW {
            return Ok(PartsByAtom::none(alloc));
        }
        let readers = by_rising_atom(readers(alloc, parts)?)?;
        Ok(PartsByAtom {
            listed: true,
            readers,
        })
    }

    /// The places of the parts that read an atom which one of the changes names, by rising place.
    /// One may stand several times.
    pub(crate) fn places_read(
        &self,
        alloc: Global,
        changes: &[&Change],
    ) -> Result<Vec<usize>, NoMemory>
        ensures read { IfOk result (λ places. (place : ℕ)
            → mentions place places.items
            ≡ is_read_at (lent changes.now) self.now.readers.items place) }
        ensures rising { IfOk result (λ places. IsNonDecreasing places.items) }
    {
        places_read(alloc, &self.readers, changes)
    }
}
