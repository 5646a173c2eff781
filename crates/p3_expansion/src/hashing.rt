//! How the table of ground atoms hashes the numbers that an atom is made of.

ghost use Rattle.std.specs.Prelude.{◌≡◌};
ghost use Rattle.p3_expansion.specs.Hashing.{finished, start, told, told_all};

use std::hash::{BuildHasher, Hasher};

/// What the state is multiplied by before each byte. It is odd, and its bits have no pattern.
const MULTIPLIER: u64 = 0x9e37_79b9_7f4a_7c15;

/// Hashes numbers byte by byte, in a few instructions each: they pass through no slice.
#[derive(Clone, Copy)]
pub struct AtomHasher {
    state: u64,
}

impl AtomHasher {
    /// One byte more.
    fn tell(&mut self, byte: u8)
        ensures { self.new ≡ told self.old byte }
    {
        self.state = self
            .state
            .wrapping_mul(MULTIPLIER)
            .wrapping_add(byte as u64);
    }
}

impl Hasher for AtomHasher {
    ghost write = { told_all };

    ghost finish = { finished };

    fn finish(&self) -> u64 {
        self.state ^ (self.state >> 32)
    }

    fn write(&mut self, bytes: &[u8]) {
        for byte in bytes {
            self.tell(*byte);
        }
    }

    fn write_u32(&mut self, number: u32) {
        let [first, second, third, fourth] = number.to_le_bytes();
        self.tell(first);
        self.tell(second);
        self.tell(third);
        self.tell(fourth);
    }

    fn write_usize(&mut self, number: usize) {
        let [first, second, third, fourth, fifth, sixth, seventh, eighth] = number.to_le_bytes();
        self.tell(first);
        self.tell(second);
        self.tell(third);
        self.tell(fourth);
        self.tell(fifth);
        self.tell(sixth);
        self.tell(seventh);
        self.tell(eighth);
    }
}

/// Makes the hashers of the table of atoms, which all begin alike.
#[derive(Clone, Copy)]
pub struct AtomHashing;

impl BuildHasher for AtomHashing {
    type Hasher = AtomHasher;

    ghost build_hasher = { λ _. start };

    fn build_hasher(&self) -> AtomHasher {
        AtomHasher { state: 0 }
    }
}
