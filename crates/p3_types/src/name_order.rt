//! Places of named items in the order of their names, and look-ups by halving.

ghost use Rattle.std.specs.Prelude.{◌≡◌, ◌<◌, List, ℕ, Some, false, map, length};
ghost use Rattle.std.specs.Prelude.{slice_get, IfOk, MatchOption};
ghost use Rattle.std.specs.Cmp.Lexicographic.{slice_cmp};
ghost use Rattle.std.specs.Ordering.{nat_cmp};
ghost use Rattle.std.specs.Str.{str_to_ascii_lowercase};
ghost use Rattle.p3_task.specs.Names.{has_name};
ghost use Rattle.p3_numbers.specs.Slots.{name_at};
ghost use Rattle.p3_types.specs.NameOrders.{IsNameOrder, ArePlaced, compare};

use p3_base::{Name, NoMemory, as_number};
use p3_task::Action;
use std::alloc::Global;
use std::cmp::Ordering;

/// What has a name.
pub(crate) trait Named {
    ghost name_of: { Self → List ℕ };

    /// Its name.
    fn name(&self) -> &Name
        ensures { result.now ≡ name_of self.now };
}

impl Named for Name {
    ghost name_of = { λ name. name };

    fn name(&self) -> &Name {
        self
    }
}

impl Named for Action {
    ghost name_of = { λ action. action.name.name };

    fn name(&self) -> &Name {
        &self.name.name
    }
}

/// The places of the items by rising names.
pub(crate) fn name_order<T: Named>(alloc: Global, items: &[T]) -> Result<Vec<u32>, NoMemory>
    ensures { IfOk result (λ order. IsNameOrder (map T.name_of items.now) order.items) }
{
    let mut pairs = named_places(alloc, items)?;
    pairs.sort_unstable();
    let order = places_of(alloc, pairs.as_slice())?;
    Ok(order)
}

/// The names of the items with their places.
#[tactic(auto, using(crate::proofs::NameOrderLemmas::placed_laws))]
fn named_places<T: Named>(alloc: Global, items: &[T]) -> Result<Vec<(&[u8], u32)>, NoMemory>
    ensures { IfOk result
        (λ pairs. ArePlaced (map T.name_of items.now) (length items.now) pairs.items) }
{
    let mut pairs = Vec::new(alloc);
    for place in 0..items.len() {
        let number = as_number(place)?;
        pairs.push((items[place].name().bytes(), number))?;
    }
    Ok(pairs)
}

/// The places alone.
fn places_of(alloc: Global, pairs: &[(&[u8], u32)]) -> Result<Vec<u32>, NoMemory>
    ensures { IfOk result (λ places. places.items ≡ map (λ pair. pair.1) pairs.now) }
{
    let mut places = Vec::new(alloc);
    for pair in pairs {
        places.push(pair.1)?;
    }
    Ok(places)
}

/// The place of an item with that name, in any case of its letters.
pub(crate) fn find_name<T: Named>(items: &[T], order: &[u32], word: &[u8]) -> Option<u32>
    requires { IsNameOrder (map T.name_of items.now) order.now }
    ensures { MatchOption result
        (has_name (map T.name_of items.now) (str_to_ascii_lowercase word.now) ≡ false)
        (λ place. slice_get (map T.name_of items.now) place
        ≡ Some (str_to_ascii_lowercase word.now)) }
{
    let mut low = 0;
    let mut high = order.len();
    while low < high {
        let middle = low + (high - low) / 2;
        let place = order[middle];
        match compared(items, place, word) {
            Ordering::Less => low = middle + 1,
            Ordering::Equal => return Some(place),
            Ordering::Greater => high = middle,
        }
    }
    None
}

/// How an item's name stands to the lowered word.
#[tactic(auto, using(crate::proofs::NameOrderLemmas::named_at))]
fn compared<T: Named>(items: &[T], place: u32, word: &[u8]) -> Ordering
    requires { place < length items.now }
    ensures { result
        ≡ compare (name_at (map T.name_of items.now) place) (str_to_ascii_lowercase word.now) }
{
    compare_lowered(items[place as usize].name().bytes(), word)
}

/// How a name stands to the lowered word.
fn compare_lowered(name: &[u8], word: &[u8]) -> Ordering
    ensures { result ≡ compare name.now (str_to_ascii_lowercase word.now) }
{
    for place in 0..name.len() {
        if place >= word.len() {
            return Ordering::Greater;
        }
        let order = name[place].cmp(&word[place].to_ascii_lowercase());
        if order.is_ne() {
            return order;
        }
    }
    if name.len() < word.len() {
        Ordering::Less
    } else {
        Ordering::Equal
    }
}
