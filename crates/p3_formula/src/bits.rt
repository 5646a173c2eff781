//! States as bits.

ghost use Rattle.std.specs.Prelude.{◌≡◌, ◌<◌, Bool, false, length, IfOk, slice_index_or, slice_set, replicate};

use p3_base::NoMemory;
use std::alloc::Global;
use std::marker::Model;

/// A state: which of the atoms are set. Contracts see the list of the bits.
#[derive(Debug, Drop)]
pub struct Bits {
    bits: Vec<bool>,
}

impl Model for Bits {
    ghost use Rattle.std.specs.Prelude.{Bool, List};
    ghost use Rattle.std.specs.Coded.{coded_bool, coded_list};

    ghost Value = { List Bool };

    ghost coded = { coded_list coded_bool };

    ghost view = { λ state. state.bits.items };
}

impl Bits {
    /// So many bits, none of them set.
    pub fn new(alloc: Global, count: usize) -> Result<Bits, NoMemory>
        ensures { IfOk result (λ state. state ≡ replicate count false) }
    {
        Ok(Bits {
            bits: vec![in alloc; false; count]?,
        })
    }

    /// How many bits there are.
    pub fn count(&self) -> usize
        ensures { result ≡ length self.now }
    {
        self.bits.len()
    }

    /// Whether the atom is set.
    pub fn get(&self, atom: usize) -> bool
        requires { atom < length self.now }
        ensures { result ≡ slice_index_or self.now atom false }
    {
        self.bits[atom]
    }

    /// The same bits once more.
    pub fn copied(&self, alloc: Global) -> Result<Bits, NoMemory>
        ensures { IfOk result (λ copy. copy ≡ self.now) }
    {
        Ok(Bits {
            bits: Vec::from_slice(alloc, &self.bits)?,
        })
    }

    /// Sets the atom, or clears it. All others stay as they are.
    pub fn set(&mut self, atom: usize, value: bool)
        requires { atom < length self.old }
        ensures { self.new ≡ slice_set self.old atom value }
    {
        self.bits[atom] = value;
    }
}
