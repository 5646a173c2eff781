//! Lists of types, numbered in the order in which they were first seen.

ghost use Rattle.std.specs.Prelude.{◌≡◌, [], map, take, length, position, IfOk, OnOk, OnErr};
ghost use Rattle.std.specs.List.{position_or_len};
ghost use Rattle.p3_task.specs.Names.{same_names};
ghost use Rattle.p3_task.specs.Types.{names_of};
ghost use Rattle.p3_numbers.specs.Names.{with_list};

use crate::Key;
use indexmap::IndexSet;
use p3_base::NoMemory;
use p3_task::Ref;
use std::alloc::Global;
use std::marker::Model;

/// Lists of types, each once, in the order in which they were first seen. A list's number is its
/// place.
#[derive(Drop)]
pub struct TypeLists<'t> {
    keys: IndexSet<Vec<&'t [u8]>, Key>,
}

impl<'t> Model for TypeLists<'t> {
    ghost use Rattle.std.specs.Prelude.{List, ℕ, map};

    ghost Value = { List (List (List ℕ)) };

    ghost view = { λ lists. map (λ key. map (λ word. word.now) key.items) lists.keys.keys };
}

/// The names of the types, which are not copied.
fn words_of<'t>(alloc: Global, types: &'t [Ref]) -> Result<Vec<&'t [u8]>, NoMemory>
    ensures { IfOk result (λ words. map (λ word. word.now) words.items ≡ names_of types.now) }
{
    let mut words = Vec::new(alloc);
    for kind in types {
        words.push(kind.name.bytes())?;
    }
    Ok(words)
}

impl<'t> TypeLists<'t> {
    /// No list. The key is made of the types of all that may be added.
    pub fn new(alloc: Global, key: Key) -> TypeLists<'t>
        ensures { result ≡ [] }
    {
        TypeLists {
            keys: IndexSet::with_hasher(alloc, key),
        }
    }

    /// How many lists there are.
    pub fn len(&self) -> usize
        ensures { result ≡ length self.now }
    {
        self.keys.len()
    }

    /// The number of the list, which goes last if it is new.
    pub fn number_of(&mut self, alloc: Global, types: &'t [Ref]) -> Result<usize, NoMemory>
        ensures lists { OnOk result (self.new ≡ with_list self.old (names_of types.now)) }
        ensures number { IfOk result
            (λ number. number
            ≡ position_or_len (λ other. same_names other (names_of types.now)) self.old) }
        ensures err { OnErr result (self.new ≡ self.old) }
    {
        let words = words_of(alloc, types)?;
        let (number, _) = self.keys.insert_full(words)?;
        Ok(number)
    }

    /// The number of the list, which is the number of lists where it is none of them.
    #[tactic(auto, using(crate::proofs::NameLemmas::number_laws))]
    pub fn find(&self, alloc: Global, types: &'t [Ref]) -> Result<usize, NoMemory>
        ensures { IfOk result
            (λ number. number
            ≡ position_or_len (λ other. same_names other (names_of types.now)) self.now) }
    {
        match self.place(alloc, types)? {
            Some(place) => Ok(place),
            None => Ok(self.len()),
        }
    }

    /// The place of the list.
    fn place(&self, alloc: Global, types: &'t [Ref]) -> Result<Option<usize>, NoMemory>
        ensures { IfOk result
            (λ place. place
            ≡ position (λ other. same_names other (names_of types.now)) self.now) }
    {
        let words = words_of(alloc, types)?;
        let number = self.keys.get_index_of(&words);
        Ok(number)
    }
}
