//! The keys by which tables of names are hashed.

ghost use Rattle.std.specs.Prelude.{◌≡◌, map};
ghost use Rattle.std.specs.Hash.DefaultHasher as sip;
ghost use Rattle.p3_task.specs.Types.{names_of};
ghost use Rattle.p3_numbers.specs.Keys.{start_after, told_all, told_more, told_number, told_numbers};

use p3_task::{Ref, Typed};
use std::hash::{BuildHasher, DefaultHasher, FoldHasher, Hasher};

/// What hashes the names of a table, by a key that those names make together.
///
/// By a rule that is known beforehand names can be chosen that all collide, and a table of them is
/// slow. Here whoever changes a name changes the key, and so which names collide. Nothing that a
/// table tells depends on its key.
#[derive(Clone, Copy)]
pub struct Key {
    start: FoldHasher,
}

impl BuildHasher for Key {
    type Hasher = FoldHasher;

    ghost build_hasher = { λ key. key.start };

    fn build_hasher(&self) -> FoldHasher {
        self.start
    }
}

/// A digest of the words and numbers that may go into a table, of which its key is made.
#[derive(Clone, Copy)]
pub struct Digest {
    told: DefaultHasher,
}

impl Digest {
    /// That of no word.
    pub fn new() -> Digest
        ensures { result.told ≡ sip.initial }
    {
        Digest {
            told: DefaultHasher::new(),
        }
    }

    /// One word more.
    pub fn tell(&mut self, word: &[u8])
        ensures { self.new.told ≡ told_more self.old.told word.now }
    {
        self.told.write(word);
        self.told.write_u8(b' ');
    }

    /// The names of listed types more.
    pub fn tell_types(&mut self, types: &[Ref])
        ensures { self.new.told ≡ told_all self.old.told (names_of types.now) }
    {
        for kind in types {
            self.tell(kind.name.bytes());
        }
    }

    /// The names of what is declared more.
    pub(crate) fn tell_declared(&mut self, items: &[Typed])
        ensures { self.new.told
            ≡ told_all self.old.told (map (λ item. item.name.name) items.now) }
    {
        for item in items {
            self.tell(item.name.name.bytes());
        }
    }

    /// One number more.
    pub fn tell_number(&mut self, number: u32)
        ensures { self.new.told ≡ told_number self.old.told number }
    {
        self.told.write_u32(number);
    }

    /// Numbers more.
    pub fn tell_numbers(&mut self, numbers: &[u32])
        ensures { self.new.told ≡ told_numbers self.old.told numbers.now }
    {
        for number in numbers {
            self.tell_number(*number);
        }
    }

    /// The key that the words and numbers make.
    pub fn key(&self) -> Key
        ensures { result.start ≡ start_after self.now.told }
    {
        let mut start = FoldHasher::default();
        start.write_u64(self.told.finish());
        Key { start }
    }
}
