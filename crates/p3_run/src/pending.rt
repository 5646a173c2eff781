//! Atoms that changes name, each taken once.

ghost use Rattle.std.specs.Prelude.{◌≡◌, ◌⊎◌, ℕ, true, false, replicate, IfOk};
ghost use Rattle.std.specs.List.{All};
ghost use Rattle.p3_run.specs.Pending.{IsPending, is_pending};

use p3_base::NoMemory;
use p3_formula::Change;
use std::alloc::Global;
use std::marker::Model;

/// Which atoms are still to be looked at in a step, so that what reads an atom is looked at once for
/// the step, however many of its changes name the atom.
#[derive(Drop)]
pub struct Pending {
    bits: Vec<bool>,
}

impl Model for Pending {
    ghost use Rattle.std.specs.Prelude.{Bool, List};

    ghost Value = { List Bool };

    ghost view = { λ pending. pending.bits.items };
}

impl Pending {
    /// Makes room for so many atoms. An atom beyond them is pending at all times.
    ///
    /// # Errors
    ///
    /// Want of memory.
    pub fn of(alloc: Global, atoms: usize) -> Result<Pending, NoMemory>
        ensures { IfOk result (λ pending. pending ≡ replicate atoms true) }
    {
        Ok(Pending {
            bits: vec![in alloc; true; atoms]?,
        })
    }

    /// Makes the atom pending.
    fn name(&mut self, atom: usize)
        ensures named { is_pending self.new atom ≡ true }
        ensures others { (other : ℕ) → is_pending self.old other ≡ true
            → is_pending self.new other ≡ true }
    {
        if atom < self.bits.len() {
            self.bits[atom] = true;
        }
    }

    /// Makes the atoms pending that changes name.
    pub fn name_all(&mut self, effects: &[Change])
        ensures { All (IsPending self.new) effects.now }
    {
        for change in effects {
            self.name(change.atom);
        }
    }

    /// Tells whether the atom is pending, and lets it be so no more.
    pub fn take(&mut self, atom: usize) -> bool
        ensures answer { result ≡ is_pending self.old atom }
        ensures rest { (other : ℕ) → is_pending self.new other ≡ false
            → (other ≡ atom) ⊎ (is_pending self.old other ≡ false) }
    {
        if atom >= self.bits.len() {
            return true;
        }
        let was = self.bits[atom];
        self.bits[atom] = false;
        was
    }
}
