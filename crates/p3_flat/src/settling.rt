//! What happens where it is known which conditions hold.

ghost use Rattle.std.specs.Prelude.{◌≡◌, ℕ, count_by, IfOk};
ghost use Rattle.p3_flat.specs.declared.placing.Placed.{Placed};
ghost use Rattle.p3_flat.specs.Splitting.{always, has_atom, holds_in, is_added_in, is_kept, settled, settled_by};

use crate::atoms::Atoms;
use crate::placing::Placed;
use p3_base::{List, NoMemory};
use p3_formula::{Change, Effects};
use std::alloc::Global;

/// So few changes are compared with one another sooner than by a set of atoms.
const FEW_CHANGES: usize = 16;

/// Whether the condition of that place holds.
fn holds(pattern: &[bool], place: Option<usize>) -> bool
    ensures { result ≡ holds_in pattern.now place }
{
    match place {
        Some(place) => place < pattern.len() && pattern[place],
        None => true,
    }
}

/// How many conditions of changes hold.
fn held(changes: &[Placed], pattern: &[bool]) -> usize
    ensures { result
        ≡ count_by (λ (change : Placed). holds_in pattern.now change.place) changes.now }
{
    let mut count: usize = 0;
    for change in changes {
        if holds(pattern, change.place) {
            count = count.wrapping_add(1);
        }
    }
    count
}

/// Whether one of the changes sets the atom.
fn sets(changes: &[Placed], pattern: &[bool], atom: usize) -> bool
    ensures { result ≡ is_added_in pattern.now changes.now atom }
{
    for change in changes {
        if change.atom == atom && change.add && holds(pattern, change.place) {
            return true;
        }
    }
    false
}

/// The atoms that are set.
fn added_atoms(alloc: Global, changes: &[Placed], pattern: &[bool]) -> Result<Atoms, NoMemory>
    ensures { IfOk result (λ atoms.
        (atom : ℕ) → has_atom atoms atom ≡ is_added_in pattern.now changes.now atom) }
{
    let mut atoms = Atoms::new(alloc);
    for change in changes {
        if change.add && holds(pattern, change.place) {
            atoms.add(change.atom)?;
        }
    }
    Ok(atoms)
}

/// Whether the change happens and does not clear what another one sets.
fn is_kept(change: &Placed, pattern: &[bool], added: &Atoms) -> bool
    ensures { result ≡ is_kept pattern.now (has_atom added.now) change.now }
{
    holds(pattern, change.place) && !(!change.add && added.has(change.atom))
}

/// The change, whatever holds.
fn always(change: &Placed) -> Change
    ensures { result ≡ always change.now }
{
    if change.add {
        Change::sets(change.atom)
    } else {
        Change::clears(change.atom)
    }
}

/// The changes that happen, where these atoms are set.
fn kept(
    alloc: Global,
    changes: &[Placed],
    pattern: &[bool],
    added: &Atoms,
) -> Result<Effects, NoMemory>
    ensures { IfOk result (λ effects.
        effects ≡ settled_by pattern.now (has_atom added.now) changes.now) }
{
    let mut effects = Vec::with_capacity(alloc, changes.len())?;
    for change in changes {
        if is_kept(change, pattern, added) {
            effects.push(always(change))?;
        }
    }
    effects.shrink_to_fit();
    Ok(List::from(effects))
}

/// Whether the change happens and none of them sets what it clears.
fn is_kept_among(change: &Placed, changes: &[Placed], pattern: &[bool]) -> bool
    ensures { result ≡ is_kept pattern.now (is_added_in pattern.now changes.now) change.now }
{
    holds(pattern, change.place) && (change.add || !sets(changes, pattern, change.atom))
}

/// The changes that happen, found without a set of atoms: each that clears an atom is compared with
/// all of them.
fn settled_few(alloc: Global, changes: &[Placed], pattern: &[bool]) -> Result<Effects, NoMemory>
    ensures { IfOk result (λ effects. effects ≡ settled pattern.now changes.now) }
{
    let mut effects = Vec::with_capacity(alloc, held(changes, pattern))?;
    for change in changes {
        if is_kept_among(change, changes, pattern) {
            effects.push(always(change))?;
        }
    }
    effects.shrink_to_fit();
    Ok(List::from(effects))
}

/// The changes that happen. Where an atom is set, none clears it.
#[tactic(auto, using(crate::proofs::SettlingLemmas::settled_is))]
pub(crate) fn settled(
    alloc: Global,
    changes: &[Placed],
    pattern: &[bool],
) -> Result<Effects, NoMemory>
    ensures { IfOk result (λ effects. effects ≡ settled pattern.now changes.now) }
{
    if changes.len() <= FEW_CHANGES {
        return settled_few(alloc, changes, pattern);
    }
    let added = added_atoms(alloc, changes, pattern)?;
    kept(alloc, changes, pattern, &added)
}
