//! The first of a name among things that are declared, found by hashing.

ghost use Rattle.std.specs.Prelude.{◌≡◌, bytes_eq, slice_get, find, OnOk, IfOk};
ghost use Rattle.std.specs.HashMap.{get};
ghost use Rattle.p3_resolve.specs.Tables.{AddsFirst, FindsFirst, first_place, is_called};

use crate::worded::{Worded, word_key};
use p3_base::{Name, NoMemory};
use p3_numbers::Key;
use std::alloc::Global;
use std::collections::HashMap;

/// From each name to the place of the first item that has it.
type Table<'t> = HashMap<&'t [u8], usize, Key>;

/// Things that are declared, the first of each name found by it.
#[derive(Drop)]
pub(crate) struct Firsts<'t, T: Worded> {
    pub(crate) items: &'t [T],
    first: Table<'t>,
    ghost told: { FindsFirst T.word_of items.now (get (λ x y. bytes_eq x.now y.now) first) },
}

/// The place of an item more, where none of its name is there.
fn note_first<'t, T: Worded>(
    first: &mut Table<'t>,
    place: usize,
    item: &'t T,
) -> Result<(), NoMemory>
    ensures { OnOk result (AddsFirst
        T.word_of
        (get (λ x y. bytes_eq x.now y.now) first.old)
        place
        item.now
        (get (λ x y. bytes_eq x.now y.now) first.new)) }
{
    let name = item.word().name.bytes();
    if first.get(name).is_none() {
        first.insert(name, place)?;
    }
    Ok(())
}

/// The first item of each name.
fn firsts_of<'t, T: Worded>(alloc: Global, items: &'t [T]) -> Result<Table<'t>, NoMemory>
    ensures { IfOk result
        (λ first. FindsFirst T.word_of items.now (get (λ x y. bytes_eq x.now y.now) first)) }
{
    let mut first = HashMap::with_hasher(alloc, word_key(items));
    for (place, item) in items.iter().enumerate() {
        note_first(&mut first, place, item)?;
    }
    Ok(first)
}

impl<'t, T: Worded> Firsts<'t, T> {
    /// The items of a list.
    pub(crate) fn of(alloc: Global, items: &'t [T]) -> Result<Firsts<'t, T>, NoMemory>
        ensures { IfOk result (λ firsts. firsts.items.now ≡ items.now) }
    {
        let first = firsts_of(alloc, items)?;
        Ok(Firsts { items, first })
    }

    /// The place of the first item of that name, or the number of items where none has it.
    #[tactic(auto, using(p3_numbers::proofs::NameLemmas::number_laws))]
    pub(crate) fn place(&self, name: &Name) -> usize
        ensures { result ≡ first_place T.word_of self.now.items.now name.now }
    {
        match self.first.get(name.bytes()) {
            None => self.items.len(),
            Some(place) => *place,
        }
    }
}
