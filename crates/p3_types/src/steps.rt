//! Steps by number.

ghost use Rattle.std.specs.Prelude.{◌≡◌, ◌+◌, ◌*◌, ◌/◌, ◌-◌, ◌<◌, ◌≤◌, min, length};
ghost use Rattle.std.specs.Prelude.{slice_index_or, IfOk};
ghost use Rattle.std.specs.List.{All};
ghost use Rattle.p3_numbers.specs.Slots.{range_at, name_at, object_names};
ghost use Rattle.p3_numbers.specs.Choices.{choice_count, choice};
ghost use Rattle.p3_types.specs.FirstSteps.{too_many, counts_of, firsts_from};

use p3_base::{List, Name, NoMemory};
use p3_numbers::{NumberedTask, Numbers};
use std::alloc::Global;

/// So many steps are too many to be numbered.
const TOO_MANY: u32 = 20_000_001;

/// The objects of a range.
pub(crate) fn objects_of(numbers: &Numbers, range: u32) -> &[u32]
    ensures { result.now ≡ range_at numbers.now range }
{
    match numbers.ranges.get(range as usize) {
        Some(objects) => objects.items(),
        None => &[],
    }
}

/// The product, as far as it is not too many.
fn capped_product(count: u32, factor: usize) -> u32
    ensures { result ≡ min (count * factor) too_many }
{
    match u64::from(count).checked_mul(factor as u64) {
        Some(product) => product.min(u64::from(TOO_MANY)) as u32,
        None => TOO_MANY,
    }
}

/// The sum, as far as it is not too many.
fn capped_sum(first: u32, count: u32) -> u32
    requires first { first ≤ too_many }
    requires count { count ≤ too_many }
    ensures { result ≡ min (first + count) too_many }
{
    (first + count).min(TOO_MANY)
}

/// How many choices of one object of each range there are, as far as they are not too many.
fn capped_count(numbers: &Numbers, ranges: &[u32]) -> u32
    ensures { result ≡ min (choice_count numbers.now ranges.now) too_many }
{
    let mut count = 1u32;
    for range in ranges {
        count = capped_product(count, objects_of(numbers, *range).len());
    }
    count
}

/// The number of each action's first step, and behind them how many steps there are.
pub(crate) fn first_steps(alloc: Global, task: &NumberedTask) -> Result<Vec<u32>, NoMemory>
    ensures { IfOk result (λ firsts. firsts.items ≡ firsts_from 0 (counts_of task.now)) }
{
    let mut firsts = Vec::new(alloc);
    let mut first = 0u32;
    firsts.push(first)?;
    for action in task.actions.items() {
        first = capped_sum(first, capped_count(&task.numbers, action.ranges.items()));
        firsts.push(first)?;
    }
    Ok(firsts)
}

/// The place between two neighbours that the number is between, by halving.
pub(crate) fn interval_of(firsts: &[u32], number: u32) -> usize
    requires some { 0 < length firsts.now }
    requires low { slice_index_or firsts.now 0 0 ≤ number }
    requires high { number < slice_index_or firsts.now (length firsts.now - 1) 0 }
    ensures within { result + 1 < length firsts.now }
    ensures low { slice_index_or firsts.now result 0 ≤ number }
    ensures high { number < slice_index_or firsts.now (result + 1) 0 }
{
    let mut low = 0;
    let mut high = firsts.len() - 1;
    while low + 1 < high {
        let middle = low + (high - low) / 2;
        if firsts[middle] <= number {
            low = middle;
        } else {
            high = middle;
        }
    }
    low
}

/// The object with which the choice of that number begins, where each begins so many.
fn first_object(objects: &[u32], number: usize, choices: usize) -> u32
    requires some { 0 < choices }
    requires within { number / choices < length objects.now }
    ensures { result ≡ slice_index_or objects.now (number / choices) 0 }
{
    objects[number / choices]
}

/// The numbers of the objects of a choice by its number among so many.
pub(crate) fn chosen(
    alloc: Global,
    numbers: &Numbers,
    ranges: &[u32],
    number: u32,
    count: u32,
) -> Result<Vec<u32>, NoMemory>
    requires count { count ≡ choice_count numbers.now ranges.now }
    requires within { number < count }
    ensures { IfOk result (λ objects. objects.items ≡ choice numbers.now ranges.now number) }
{
    let mut chosen = Vec::new(alloc);
    let mut rest = number as usize;
    let mut block = count as usize;
    for range in ranges {
        let objects = objects_of(numbers, *range);
        block /= objects.len();
        let object = first_object(objects, rest, block);
        rest %= block;
        chosen.push(object)?;
    }
    Ok(chosen)
}

/// The names of the objects.
pub(crate) fn names_of(
    alloc: Global,
    numbers: &Numbers,
    objects: &[u32],
) -> Result<List<Name>, NoMemory>
    requires { All (λ object. object < length numbers.now.objects) objects.now }
    ensures { IfOk result (λ names. names ≡ object_names numbers.now objects.now) }
{
    let mut names = List::new(alloc);
    for object in objects {
        let name = copied(alloc, &numbers.objects.items()[*object as usize])?;
        names.push(name)?;
    }
    Ok(names)
}

/// A copy of a name.
pub(crate) fn copied(alloc: Global, name: &Name) -> Result<Name, NoMemory>
    ensures { IfOk result (λ copy. copy ≡ name.now) }
{
    let copy = Name::of(alloc, name.bytes())?;
    Ok(copy)
}
