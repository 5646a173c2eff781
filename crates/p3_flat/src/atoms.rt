//! Sets of atoms.

ghost use Rattle.std.specs.Prelude.{◌≡◌, [], OnOk};
ghost use Rattle.p3_flat.specs.Splitting.{has_atom, with_atom};

use indexmap::IndexSet;
use p3_base::NoMemory;
use std::alloc::Global;
use std::marker::Model;

/// Atoms, each once.
#[derive(Drop)]
pub(crate) struct Atoms {
    atoms: IndexSet<usize>,
}

impl Model for Atoms {
    ghost use Rattle.std.specs.Prelude.{List, ℕ};

    ghost Value = { List ℕ };

    ghost view = { λ set. set.atoms.keys };
}

impl Atoms {
    /// No atom.
    pub(crate) fn new(alloc: Global) -> Atoms
        ensures { result ≡ [] }
    {
        Atoms {
            atoms: IndexSet::new(alloc),
        }
    }

    /// Whether the atom is there.
    pub(crate) fn has(&self, atom: usize) -> bool
        ensures { result ≡ has_atom self.now atom }
    {
        self.atoms.contains(&atom)
    }

    /// The atom is there, too.
    pub(crate) fn add(&mut self, atom: usize) -> Result<(), NoMemory>
        ensures { OnOk result (self.new ≡ with_atom self.old atom) }
    {
        self.atoms.insert_full(atom)?;
        Ok(())
    }
}
