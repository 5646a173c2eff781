//! Which of several forms, each at a place, read an atom.

ghost use Rattle.std.specs.Prelude.{◌≡◌, ◌++◌, ℕ, map, IfOk, OnOk};
ghost use Rattle.std.specs.List.{flat_map, filter};
ghost use Rattle.std.specs.List.Sorted.{IsPermutation, IsNonDecreasing};
ghost use Rattle.p3_formula.specs.AtomLists.{atoms_of};
ghost use Rattle.p3_regress.specs.Readers.{reader, reads_atom, places_of, is_read_at, mentions, AreRising};
ghost use Rattle.p3_regress.specs.Sorted.{lent};

use p3_base::NoMemory;
use p3_formula::{Change, Form};
use std::alloc::Global;

/// What stands at a place reads an atom.
#[derive(Drop)]
pub struct PartReader {
    /// The atom.
    pub atom: usize,
    /// The place.
    pub place: usize,
}

/// The parts of a conjunction or a disjunction by the atoms that they read, so that a step which
/// touches some of them need not look at all. Where they are few, nothing is listed.
#[derive(Drop)]
pub struct PartsByAtom {
    pub(crate) listed: bool,
    pub(crate) readers: Vec<PartReader>,
    ghost rising: { AreRising readers.items },
}

/// The form at the place reads its atoms.
#[cycle(atoms)]
#[tactic(auto, using(p3_formula::proofs::AtomLists::atoms_of_laws))]
pub fn push_readers(
    readers: &mut Vec<PartReader>,
    form: &Form,
    place: usize,
) -> Result<(), NoMemory>
    ensures { OnOk result (readers.new.items
        ≡ readers.old.items ++ map (reader place) (atoms_of form.now)) }
{
    match form {
        Form::True => Ok(()),
        Form::False => Ok(()),
        Form::Atom(atom) => {
            readers.push(PartReader { atom: *atom, place })?;
            Ok(())
        }
        Form::Not(part) => push_readers(readers, part.get(), place),
        Form::And(parts) | Form::Or(parts) => push_all_readers(readers, parts.items(), place),
    }
}

/// The forms, all at the place, read their atoms.
#[cycle(atoms)]
fn push_all_readers(
    readers: &mut Vec<PartReader>,
    forms: &[Form],
    place: usize,
) -> Result<(), NoMemory>
    ensures { OnOk result (readers.new.items
        ≡ readers.old.items ++ map (reader place) (flat_map atoms_of forms.now)) }
{
    for form in forms {
        push_readers(readers, form, place)?;
    }
    Ok(())
}

/// The readers by rising atom.
pub fn by_rising_atom(readers: Vec<PartReader>) -> Result<Vec<PartReader>, NoMemory>
    ensures same { IfOk result (λ sorted. IsPermutation readers.items sorted.items) }
    ensures rising { IfOk result (λ sorted. AreRising sorted.items) }
{
    let mut sorted = readers;
    sorted.sort_by_key(|reader| reader.atom)?;
    Ok(sorted)
}

/// Those of the atom, found by halving.
fn readers_of(readers: &[PartReader], atom: usize) -> &[PartReader]
    requires { AreRising readers.now }
    ensures { result.now ≡ filter (reads_atom atom) readers.now }
{
    let start = readers.partition_point(|reader| reader.atom < atom);
    let rest = &readers[start..];
    let count = rest.partition_point(|reader| reader.atom <= atom);
    &rest[..count]
}

/// The places of the readers stand behind the others.
fn push_places(places: &mut Vec<usize>, readers: &[PartReader]) -> Result<(), NoMemory>
    ensures { OnOk result (places.new.items ≡ places.old.items ++ places_of readers.now) }
{
    for reader in readers {
        places.push(reader.place)?;
    }
    Ok(())
}

/// The places at which an atom is read that one of the changes names, by rising place, once for
/// each time that it is read there.
pub(crate) fn places_read(
    alloc: Global,
    readers: &[PartReader],
    changes: &[&Change],
) -> Result<Vec<usize>, NoMemory>
    requires { AreRising readers.now }
    ensures read { IfOk result (λ places. (place : ℕ)
        → mentions place places.items ≡ is_read_at (lent changes.now) readers.now place) }
    ensures rising { IfOk result (λ places. IsNonDecreasing places.items) }
{
    let mut places = Vec::new(alloc);
    for change in changes {
        push_places(&mut places, readers_of(readers, change.atom))?;
    }
    places.sort()?;
    Ok(places)
}
