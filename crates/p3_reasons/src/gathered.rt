//! Atoms that decide a condition, while they are gathered.

ghost use Rattle.std.specs.Prelude.{◌≡◌, false, not, [], ◌∷◌, fold, flat_map, IfOk, OnOk};
ghost use Rattle.p3_expansion.specs.Atoms.{with_atom};
ghost use Rattle.p3_reasons.specs.Outcomes.{joined, opposite, settles};
ghost use Rattle.p3_reasons.specs.Gathering.{atoms_of, outcome_of};

use p3_base::{List, NoMemory};
use p3_expansion::Atoms;
use std::alloc::Global;

/// Atoms that are not in one list yet: so those of a part are passed on, or let go of, as a whole.
#[derive(Drop)]
pub(crate) enum Gathered {
    /// One atom.
    One(List<u32>),
    /// All of these.
    All(List<Gathered>),
}

/// What a condition has come to: whether it holds, and atoms that decide it.
#[derive(Drop)]
pub(crate) struct Finding {
    /// Whether it holds.
    pub(crate) holds: bool,
    /// The atoms.
    pub(crate) atoms: Gathered,
}

/// Whether a part decides alone whether all hold, or else whether some does.
pub(crate) fn settles_alone(every: bool, part: bool) -> bool
    ensures { result ≡ settles every part }
{
    if every { !part } else { part }
}

/// What holds or does not, whatever the state.
pub(crate) fn fixed(alloc: Global, holds: bool) -> Finding
    ensures { outcome_of result ≡ record { holds = holds; atoms = [] } }
{
    Finding {
        holds,
        atoms: Gathered::All(List::new(alloc)),
    }
}

/// The opposite.
pub(crate) fn turned(finding: Finding) -> Finding
    ensures { outcome_of result ≡ opposite (outcome_of finding) }
{
    let Finding { holds, atoms } = finding;
    Finding {
        holds: !holds,
        atoms,
    }
}

/// One of two that hold in turn, where neither decides alone.
pub(crate) fn neither(alloc: Global, first: Finding, second: Finding) -> Result<Finding, NoMemory>
    requires first { first.holds ≡ false }
    requires second { second.holds ≡ false }
    ensures { IfOk result (λ finding. outcome_of finding
        ≡ joined false (outcome_of first ∷ outcome_of second ∷ [])) }
{
    let mut all = List::new(alloc);
    all.push(first.atoms)?;
    all.push(second.atoms)?;
    Ok(Finding {
        holds: false,
        atoms: Gathered::All(all),
    })
}

/// Puts the atoms that are not there yet behind the others.
#[cycle(listing)]
fn list_atoms(alloc: Global, gathered: &Gathered, found: &mut Atoms) -> Result<(), NoMemory>
    ensures { OnOk result (found.new ≡ fold with_atom found.old (atoms_of gathered.now)) }
{
    match gathered {
        Gathered::One(atom) => {
            found.number_of(alloc, atom.items())?;
            Ok(())
        }
        Gathered::All(parts) => list_all_atoms(alloc, parts.items(), found),
    }
}

/// Puts the atoms of all of these that are not there yet behind the others.
#[cycle(listing)]
fn list_all_atoms(alloc: Global, parts: &[Gathered], found: &mut Atoms) -> Result<(), NoMemory>
    ensures { OnOk result (found.new ≡ fold with_atom found.old (flat_map atoms_of parts.now)) }
{
    for part in parts {
        list_atoms(alloc, part, found)?;
    }
    Ok(())
}

/// Each of the atoms once.
pub(crate) fn each_once(alloc: Global, gathered: &Gathered) -> Result<Atoms, NoMemory>
    ensures { IfOk result (λ atoms. atoms ≡ fold with_atom [] (atoms_of gathered.now)) }
{
    let mut atoms = Atoms::new(alloc);
    list_atoms(alloc, gathered, &mut atoms)?;
    Ok(atoms)
}
