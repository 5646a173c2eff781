//! Names, whose letters are lower case, and words as they were given.

ghost use Rattle.std.specs.Prelude.{◌≡◌, IfOk};
ghost use Rattle.std.specs.Ordering.{nat_cmp};
ghost use Rattle.std.specs.Cmp.Lexicographic.{slice_cmp};
ghost use Rattle.std.specs.Str.{str_to_ascii_lowercase};

use crate::NoMemory;
use smallvec::SmallVec;
use std::alloc::Global;
use std::cmp::Ordering;
use std::marker::Model;

/// A name of a task: bytes whose letters A to Z are lowered. Those of a short name lie in it, since
/// a text can name a million things, and most names are short.
#[derive(Debug, Drop)]
pub struct Name {
    bytes: SmallVec<u8, 16>,
}

impl Model for Name {
    ghost use Rattle.std.specs.Prelude.{List, ℕ, ◌≡◌};
    ghost use Rattle.std.specs.Str.{str_to_ascii_lowercase};

    ghost Value = { List ℕ };

    ghost view = { λ name. name.bytes.items };

    ghost invariant = { λ name. str_to_ascii_lowercase name.bytes.items ≡ name.bytes.items };
}

/// Lowers the letters A to Z.
fn lower(bytes: &mut SmallVec<u8, 16>)
    ensures { bytes.new.items ≡ str_to_ascii_lowercase bytes.old.items }
{
    bytes.as_mut_slice().make_ascii_lowercase();
}

impl Name {
    /// The text with A to Z lowered.
    pub fn of(alloc: Global, text: &[u8]) -> Result<Name, NoMemory>
        ensures { IfOk result (λ name. name ≡ str_to_ascii_lowercase text.now) }
    {
        let mut bytes = SmallVec::from_slice(alloc, text)?;
        lower(&mut bytes);
        Ok(Name { bytes })
    }

    /// The bytes, lowered.
    pub fn bytes(&self) -> &[u8]
        ensures bytes { result.now ≡ self.now }
        ensures lowered { str_to_ascii_lowercase self.now ≡ self.now }
    {
        self.bytes.as_slice()
    }

    /// Which of two names comes first, by their bytes.
    pub fn compare(&self, other: &Name) -> Ordering
        ensures { result ≡ slice_cmp nat_cmp self.now other.now }
    {
        self.bytes.as_slice().cmp(&other.bytes.as_slice())
    }
}

/// A word of the command line: bytes as they were given.
#[derive(Debug, Drop)]
pub struct Word {
    bytes: Vec<u8>,
}

impl Model for Word {
    ghost use Rattle.std.specs.Prelude.{List, ℕ};

    ghost Value = { List ℕ };

    ghost view = { λ word. word.bytes.items };
}

impl Word {
    /// The word with these bytes.
    pub fn of(alloc: Global, text: &[u8]) -> Result<Word, NoMemory>
        ensures { IfOk result (λ word. word ≡ text.now) }
    {
        let bytes = Vec::from_slice(alloc, text)?;
        Ok(Word { bytes })
    }

    /// The bytes, out of the word.
    pub(crate) fn into_bytes(self) -> Vec<u8>
        ensures { result.items ≡ self }
    {
        let Word { bytes } = self;
        bytes
    }

    /// The bytes as they were given.
    pub fn bytes(&self) -> &[u8]
        ensures { result.now ≡ self.now }
    {
        self.bytes.as_slice()
    }
}
