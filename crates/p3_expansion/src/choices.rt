//! Choices of one object of each range, one after another.

ghost use Rattle.std.specs.Prelude.{◌≡◌, ◌≤◌, ◌<◌, ◌^◌, ◌++◌, length, take, slice_index_or, OnOk};
ghost use Rattle.std.specs.Bool.{OnFalse, OnTrue};
ghost use Rattle.std.specs.Result.{MatchResult};
ghost use Rattle.p3_numbers.specs.Slots.{range_at};
ghost use Rattle.p3_numbers.specs.Choices.{choice, choice_count as count_of};

use p3_base::{NoMemory, TooLarge};
use p3_numbers::Numbers;

/// The objects of a range.
pub fn objects_of(numbers: &Numbers, range: u32) -> &[u32]
    ensures { result.now ≡ range_at numbers.now range }
{
    match numbers.ranges.get(range as usize) {
        Some(objects) => objects.items(),
        None => &[],
    }
}

/// The object at a place.
pub fn object_at(objects: &[u32], place: usize) -> u32
    ensures { result ≡ slice_index_or objects.now place 0 }
{
    match objects.get(place) {
        Some(object) => *object,
        None => 0,
    }
}

/// Whether a range has no object.
fn has_empty(numbers: &Numbers, ranges: &[u32]) -> bool
    ensures none { OnTrue result (count_of numbers.now ranges.now ≡ 0) }
    ensures some { OnFalse result (0 < count_of numbers.now ranges.now) }
{
    for range in ranges {
        if objects_of(numbers, *range).is_empty() {
            return true;
        }
    }
    false
}

/// How many choices there are.
///
/// # Errors
///
/// `TooLarge` exactly from 2 ^ 64 on.
pub fn choice_count(numbers: &Numbers, ranges: &[u32]) -> Result<usize, TooLarge>
    ensures { MatchResult result (λ count. count ≡ count_of numbers.now ranges.now)
        (λ _. 2 ^ 64 ≤ count_of numbers.now ranges.now) }
{
    if has_empty(numbers, ranges) {
        return Ok(0);
    }
    let mut count: usize = 1;
    for range in ranges {
        match count.checked_mul(objects_of(numbers, *range).len()) {
            Some(more) => count = more,
            None => return Err(TooLarge),
        }
    }
    Ok(count)
}

/// Puts the objects of the choice of that number behind those in the slots.
fn push_choice(
    slots: &mut Vec<u32>,
    numbers: &Numbers,
    ranges: &[u32],
    count: usize,
    number: usize,
) -> Result<(), NoMemory>
    requires count { count ≡ count_of numbers.now ranges.now }
    requires within { number < count }
    ensures { OnOk result (slots.new.items
        ≡ slots.old.items ++ choice numbers.now ranges.now number) }
{
    let mut left = count;
    let mut rest = number;
    for range in ranges {
        let objects = objects_of(numbers, *range);
        left /= objects.len();
        slots.push(object_at(objects, rest / left))?;
        rest %= left;
    }
    Ok(())
}

/// Puts the objects of the choice of that number behind the first objects in the slots.
pub fn place_choice(
    slots: &mut Vec<u32>,
    first: usize,
    numbers: &Numbers,
    ranges: &[u32],
    count: usize,
    number: usize,
) -> Result<(), NoMemory>
    requires count { count ≡ count_of numbers.now ranges.now }
    requires within { number < count }
    ensures { OnOk result
        (slots.new.items ≡ take first slots.old.items ++ choice numbers.now ranges.now number) }
{
    slots.truncate(first);
    push_choice(slots, numbers, ranges, count, number)
}
