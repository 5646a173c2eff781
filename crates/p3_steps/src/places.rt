//! The places of a range's objects, so that those that facts name are found without a look at the
//! others.

ghost use Rattle.std.specs.Prelude.{◌≡◌, ◌<◌, ◌++◌, All, flat_map, length, slice_index_or, IfOk, IfSome, OnOk};
ghost use Rattle.std.specs.Bool.{OnTrue};
ghost use Rattle.std.specs.List.{Contains};
ghost use Rattle.std.specs.List.Sorted.{IsStrictlyIncreasing};
ghost use Rattle.p3_steps.specs.Candidates.{AreNoted, ArePlaces, noted_at};

use p3_base::NoMemory;
use std::alloc::Global;

/// Notes for each object of a range its place there, and for all others how many there are.
fn noted_places(alloc: Global, objects: &[u32], size: usize) -> Result<Vec<usize>, NoMemory>
    ensures { IfOk result (λ places. length places.items ≡ size) }
{
    let mut places = vec![in alloc; objects.len(); size]?;
    for place in 0..objects.len() {
        let object = objects[place] as usize;
        if object < size {
            places[object] = place;
        }
    }
    Ok(places)
}

/// The place that is noted for the object, or else the count.
fn place_at(places: &[usize], object: u32, count: usize) -> usize
    ensures { result ≡ slice_index_or places.now object count }
{
    match places.get(object as usize) {
        Some(place) => *place,
        None => count,
    }
}

/// Whether its own place is noted for each of the objects.
fn are_noted(places: &[usize], objects: &[u32]) -> bool
    ensures { OnTrue result (AreNoted places.now objects.now) }
{
    let count = objects.len();
    for place in 0..count {
        if place_at(places, objects[place], count) != place {
            return false;
        }
    }
    true
}

/// The places of a range's objects by the objects, of which there are so many, if each stands at
/// one place alone.
pub(crate) fn places_of(
    alloc: Global,
    objects: &[u32],
    size: usize,
) -> Result<Option<Vec<usize>>, NoMemory>
    ensures { IfOk result
        (λ found. IfSome found (λ places. ArePlaces size objects.now places.items)) }
{
    let places = noted_places(alloc, objects, size)?;
    if !are_noted(places.as_slice(), objects) {
        return Ok(None);
    }
    Ok(Some(places))
}

/// Puts the place of the object behind those found, if it stands in the range.
fn push_place(
    found: &mut Vec<usize>,
    places: &[usize],
    count: usize,
    object: u32,
) -> Result<(), NoMemory>
    ensures { OnOk result
        (found.new.items ≡ found.old.items ++ noted_at places.now count object) }
{
    let place = place_at(places, object, count);
    if place < count {
        found.push(place)?;
    }
    Ok(())
}

/// Puts the places of those of the objects that stand in the range behind those found.
fn push_places(
    found: &mut Vec<usize>,
    places: &[usize],
    count: usize,
    row: &[u32],
) -> Result<(), NoMemory>
    ensures { OnOk result (found.new.items
        ≡ found.old.items ++ flat_map (noted_at places.now count) row.now) }
{
    for object in row {
        push_place(found, places, count, *object)?;
    }
    Ok(())
}

/// Puts the places in rising order, each once.
fn sort(found: &mut Vec<usize>)
    ensures rising { IsStrictlyIncreasing found.new.items }
    ensures keeps { All (Contains found.new.items) found.old.items }
    ensures only { All (Contains found.old.items) found.new.items }
{
    found.sort_unstable();
    found.dedup();
}

/// Finds the places of those of the objects that stand in the range of so many, rising.
pub(crate) fn find_places(
    found: &mut Vec<usize>,
    places: &[usize],
    count: usize,
    row: &[u32],
) -> Result<(), NoMemory>
    ensures rising { OnOk result (IsStrictlyIncreasing found.new.items) }
    ensures within { OnOk result (All (λ place. place < count) found.new.items) }
    ensures all { OnOk result
        (All (Contains found.new.items) (flat_map (noted_at places.now count) row.now)) }
{
    found.clear();
    push_places(found, places, count, row)?;
    sort(found);
    Ok(())
}
