//! Which ground atoms are true.

ghost use Rattle.std.specs.Prelude.{◌≡◌, ℕ, Bool, List as Items};

use p3_expansion::Atoms;

/// The ground atoms that are true in a state. An atom is the number of its predicate and then the
/// numbers of its objects.
pub trait Facts {
    ghost has_atom: { Self → Items ℕ → Bool };

    /// Tells whether the atom is true.
    fn has(&self, atom: &[u32]) -> bool
        ensures { result ≡ has_atom self.now atom.now };
}

impl Facts for Atoms {
    ghost use Rattle.std.specs.Prelude.{bytes_eq};
    ghost use Rattle.std.specs.List.{list_any};

    ghost has_atom = { λ atoms atom. list_any (bytes_eq atom) atoms };

    fn has(&self, atom: &[u32]) -> bool {
        Atoms::has(self, atom)
    }
}
