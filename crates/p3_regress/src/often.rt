//! What is noted of atoms that many changes name.

ghost use Rattle.std.specs.Prelude.{◌≡◌, IfOk};
ghost use Rattle.p3_regress.specs.Often.{AreNoted};
ghost use Rattle.p3_regress.specs.Regressed as made;
ghost use Rattle.p3_regress.specs.Sorted.{lent, IsRising};

use crate::changed::atom_after;
use crate::sorted::changes_of;
use p3_base::NoMemory;
use p3_formula::{Change, Form, copied};
use std::alloc::Global;

/// How many changes of an atom are looked through at each place at which it stands.
const FEW: usize = 15;

/// An atom that many changes name, and its form before them.
#[derive(Drop)]
pub(crate) struct Noted {
    pub(crate) atom: usize,
    pub(crate) form: Form,
}

/// Whether the last of those noted is of the atom.
fn is_last(noted: &[Noted], atom: usize) -> bool {
    match noted.last() {
        Some(one) => one.atom == atom,
        None => false,
    }
}

/// The atom is noted, with its form before the changes.
fn note(
    alloc: Global,
    noted: &mut Vec<Noted>,
    changes: &[&Change],
    atom: usize,
) -> Result<(), NoMemory>
    requires rising { IsRising changes.now }
    requires right { AreNoted (lent changes.now) noted.old.items }
    ensures { AreNoted (lent changes.now) noted.new.items }
{
    let form = atom_after(alloc, changes_of(changes, atom), atom)?;
    noted.push(Noted { atom, form })?;
    Ok(())
}

/// The atoms that many of the changes name, each once, by rising atom.
pub(crate) fn often_changed(alloc: Global, changes: &[&Change]) -> Result<Vec<Noted>, NoMemory>
    requires { IsRising changes.now }
    ensures { IfOk result (λ noted. AreNoted (lent changes.now) noted.items) }
{
    let mut noted = Vec::new(alloc);
    for last in FEW..changes.len() {
        let atom = changes[last].atom;
        if changes[last - FEW].atom == atom && !is_last(&noted, atom) {
            note(alloc, &mut noted, changes, atom)?;
        }
    }
    Ok(noted)
}

/// The form before the changes of an atom, as it was noted or else as it is made.
pub(crate) fn atom_before(
    alloc: Global,
    changes: &[&Change],
    noted: &[Noted],
    atom: usize,
) -> Result<Form, NoMemory>
    requires rising { IsRising changes.now }
    requires right { AreNoted (lent changes.now) noted.now }
    ensures { IfOk result (λ before. before ≡ made.atom_after (lent changes.now) atom) }
{
    let place = noted.partition_point(|one| one.atom < atom);
    if place < noted.len() && noted[place].atom == atom {
        return copied(alloc, &noted[place].form);
    }
    atom_after(alloc, changes_of(changes, atom), atom)
}
