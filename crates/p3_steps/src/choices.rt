//! The choices of an action's arguments that may begin.

ghost use Rattle.std.specs.Prelude.{◌≡◌, ◌<◌, ◌≤◌, ◌*◌, ◌+◌, ◌++◌, [], ◌∷◌, true, All, drop, flat_map, if◌then◌else◌, length, take, IfOk, IfSome, OnOk};
ghost use Rattle.std.specs.List.{filter};
ghost use Rattle.p3_task.specs.Sides.{step_count_limit};
ghost use Rattle.p3_numbers.specs.Choices.{choice, choice_count as count_of};
ghost use Rattle.p3_steps.specs.Candidates.{
  ArePlaces,
  all_taken,
  candidates_among as begin_among,
  candidates_of,
  open_among as among,
  open_choices as all_open,
  taken_at,
  taken_behind,
};
ghost use Rattle.p3_steps.specs.Late.{all_begin as all_may_begin};
ghost use Rattle.p3_steps.specs.Links.{Tells};
ghost use Rattle.p3_steps.specs.Possible.{may_begin, may_yet_begin};

use crate::conjuncts::Test;
use crate::late::{all_begin, late_parts};
use crate::links::{Links, all_links, shortest_row};
use crate::places::{find_places, places_of};
use p3_base::NoMemory;
use p3_expansion::{Statics, choice_count, objects_of, place_choice};
use p3_numbers::{NumberedGoal, Numbers};
use std::alloc::Global;

/// Whether the precondition may begin where the object comes behind those in the slots.
fn may_take(
    test: &Test,
    words: &mut Vec<u32>,
    slots: &mut Vec<u32>,
    object: u32,
) -> Result<bool, NoMemory>
    ensures slots { OnOk result (slots.new.items ≡ slots.old.items) }
    ensures may { IfOk result (λ may. may ≡ may_yet_begin test.now.numbers.now
        test.now.statics.now (slots.old.items ++ object ∷ []) test.now.goal.now) }
{
    let size = slots.len();
    slots.push(object)?;
    let may = test.may_yet_begin(words, slots.as_slice())?;
    slots.truncate(size);
    Ok(may)
}

/// Puts the number of the object at the place, counted on from the first number, behind those
/// taken, if it may come behind those in the slots.
fn push_one(
    test: &Test,
    words: &mut Vec<u32>,
    slots: &mut Vec<u32>,
    objects: &[u32],
    first: usize,
    place: usize,
    taken: &mut Vec<u32>,
) -> Result<(), NoMemory>
    requires few { first + length objects.now ≤ step_count_limit }
    requires within { place < length objects.now }
    ensures slots { OnOk result (slots.new.items ≡ slots.old.items) }
    ensures taken { OnOk result (taken.new.items ≡ taken.old.items ++ taken_at
        test.now.numbers.now test.now.statics.now test.now.goal.now slots.old.items
        objects.now first place) }
{
    if may_take(test, words, slots, objects[place])? {
        taken.push((first + place) as u32)?;
    }
    Ok(())
}

/// Puts the numbers of the objects that may come behind those in the slots, on from the first
/// number, behind those taken.
fn push_all(
    test: &Test,
    words: &mut Vec<u32>,
    slots: &mut Vec<u32>,
    objects: &[u32],
    first: usize,
    taken: &mut Vec<u32>,
) -> Result<(), NoMemory>
    requires few { first + length objects.now ≤ step_count_limit }
    ensures { OnOk result (taken.new.items ≡ taken.old.items ++ all_taken
        test.now.numbers.now test.now.statics.now test.now.goal.now slots.old.items
        objects.now first) }
{
    for place in 0..objects.len() {
        push_one(test, words, slots, objects, first, place, taken)?;
    }
    Ok(())
}

/// Puts the numbers of the objects at these places, of those that may come behind those in the
/// slots, behind those taken.
fn push_found(
    test: &Test,
    words: &mut Vec<u32>,
    slots: &mut Vec<u32>,
    objects: &[u32],
    first: usize,
    found: &[usize],
    taken: &mut Vec<u32>,
) -> Result<(), NoMemory>
    requires few { first + length objects.now ≤ step_count_limit }
    requires within { All (λ place. place < length objects.now) found.now }
    ensures { OnOk result (taken.new.items ≡ taken.old.items ++ flat_map (taken_at
        test.now.numbers.now test.now.statics.now test.now.goal.now slots.old.items
        objects.now first) found.now) }
{
    for place in found {
        push_one(test, words, slots, objects, first, *place, taken)?;
    }
    Ok(())
}

/// Puts the numbers of the objects that may come behind those in the slots, on from the first
/// number, behind those taken. Where facts tell of them, no other one is looked at.
fn push_behind(
    test: &Test,
    links: &[Links],
    places: Option<&[usize]>,
    words: &mut Vec<u32>,
    slots: &mut Vec<u32>,
    found: &mut Vec<usize>,
    objects: &[u32],
    first: usize,
    taken: &mut Vec<u32>,
) -> Result<(), NoMemory>
    requires few { first + length objects.now ≤ step_count_limit }
    requires places { IfSome places (λ those.
        ArePlaces (length test.now.numbers.now.objects) objects.now those.now) }
    requires links { All (Tells test.now.numbers.now test.now.statics.now test.now.goal.now
        (length slots.old.items)) links.now }
    ensures { OnOk result (taken.new.items ≡ taken.old.items ++ all_taken
        test.now.numbers.now test.now.statics.now test.now.goal.now slots.old.items
        objects.now first) }
{
    let Some(places) = places else {
        return push_all(test, words, slots, objects, first, taken);
    };
    let Some(row) = shortest_row(links, test, words, slots.as_slice())? else {
        return push_all(test, words, slots, objects, first, taken);
    };
    find_places(found, places, objects.len(), row)?;
    push_found(test, words, slots, objects, first, found.as_slice(), taken)
}

/// The places of a range's objects, if what facts tell is less work than so many tests.
fn useful_places(
    alloc: Global,
    test: &Test,
    objects: &[u32],
    tests: usize,
) -> Result<Option<Vec<usize>>, NoMemory>
    ensures { IfOk result (λ found. IfSome found (λ places.
        ArePlaces (length test.now.numbers.now.objects) objects.now places.items)) }
{
    if tests < test.statics.facts.len() {
        return Ok(None);
    }
    places_of(alloc, objects, test.numbers.objects.len())
}

/// What the facts tell of the variable behind the first so many, if that is of use.
fn useful_links<'t>(
    alloc: Global,
    test: &Test<'t>,
    count: usize,
    is_useful: bool,
) -> Result<Vec<Links<'t>>, NoMemory>
    ensures { IfOk result (λ links. All
        (Tells test.now.numbers.now test.now.statics.now test.now.goal.now count) links.items) }
{
    if !is_useful {
        return Ok(Vec::new(alloc));
    }
    all_links(alloc, test, count)
}

/// The choices of one range more, behind each of those kept, at which the precondition may begin.
fn widened(
    alloc: Global,
    test: &Test,
    before: &[u32],
    count: usize,
    objects: &[u32],
    kept: &[u32],
) -> Result<Vec<u32>, NoMemory>
    requires count { count ≡ count_of test.now.numbers.now before.now }
    requires few { count * length objects.now ≤ step_count_limit }
    requires within { All (λ number. number < count) kept.now }
    ensures { IfOk result (λ wider. wider.items ≡ flat_map (taken_behind test.now.numbers.now
        test.now.statics.now test.now.goal.now before.now objects.now) kept.now) }
{
    let tests = kept.len().saturating_mul(objects.len());
    let useful = useful_places(alloc, test, objects, tests)?;
    let links = useful_links(alloc, test, before.len(), useful.is_some())?;
    let places = useful.as_deref();
    let mut found = Vec::new(alloc);
    let mut words = Vec::new(alloc);
    let mut slots = Vec::new(alloc);
    let mut wider = Vec::new(alloc);
    for choice in kept {
        let number = *choice as usize;
        place_choice(&mut slots, 0, test.numbers, before, count, number)?;
        push_behind(
            test,
            links.as_slice(),
            places,
            &mut words,
            &mut slots,
            &mut found,
            objects,
            number * objects.len(),
            &mut wider,
        )?;
    }
    Ok(wider)
}

/// The place of the first range, on from a place, that has not just one object, or of the last.
fn next_wide(numbers: &Numbers, ranges: &[u32], place: usize) -> usize
    requires { place < length ranges.now }
    ensures within { result < length ranges.now }
    ensures on { place ≤ result }
    ensures ones { count_of numbers.now (drop place (take result ranges.now)) ≡ 1 }
{
    let mut last = place;
    while last + 1 < ranges.len() && objects_of(numbers, ranges[last]).len() == 1 {
        last += 1;
    }
    last
}

/// The choices of no object at which a precondition may begin: the one that there is, or none.
fn first_kept(alloc: Global, test: &Test) -> Result<Vec<u32>, NoMemory>
    ensures { IfOk result (λ kept. kept.items
        ≡ all_open test.now.numbers.now test.now.statics.now [] test.now.goal.now) }
{
    let mut words = Vec::new(alloc);
    let slots = Vec::new(alloc);
    let mut kept = Vec::new(alloc);
    if test.may_yet_begin(&mut words, slots.as_slice())? {
        kept.push(0)?;
    }
    Ok(kept)
}

/// The numbers of the choices of one object of each range at which a precondition may begin as far
/// as it tells without the objects of its quantifiers, rising. A range is added after another, to
/// those choices alone that are not ruled out before; ranges of one object go with the next one.
fn open_choices(
    alloc: Global,
    numbers: &Numbers,
    statics: &Statics,
    ranges: &[u32],
    goal: &NumberedGoal,
) -> Result<Vec<u32>, NoMemory>
    requires { count_of numbers.now ranges.now ≤ step_count_limit }
    ensures { IfOk result (λ kept. kept.items
        ≡ all_open numbers.now statics.now ranges.now goal.now) }
{
    if choice_count(numbers, ranges)? == 0 {
        return Ok(Vec::new(alloc));
    }
    let test = Test::of(alloc, numbers, statics, goal)?;
    let mut kept = first_kept(alloc, &test)?;
    let mut count = 1;
    let mut place = 0;
    while place < ranges.len() {
        let last = next_wide(numbers, ranges, place);
        let objects = objects_of(numbers, ranges[last]);
        kept = widened(
            alloc,
            &test,
            &ranges[..last],
            count,
            objects,
            kept.as_slice(),
        )?;
        count *= objects.len();
        place = last + 1;
    }
    Ok(kept)
}

/// Puts a choice behind those kept, where it may begin.
fn keep_choice(kept: &mut Vec<u32>, choice: u32, may: bool) -> Result<(), NoMemory>
    ensures { OnOk result
        (kept.new.items ≡ (if may then kept.old.items ++ choice ∷ [] else kept.old.items)) }
{
    if may {
        kept.push(choice)?;
    }
    Ok(())
}

/// The choices of these numbers, which follow on those of so many steps, at which a precondition
/// may begin as far as it tells without the objects of its quantifiers.
fn open_among(
    alloc: Global,
    numbers: &Numbers,
    statics: &Statics,
    ranges: &[u32],
    goal: &NumberedGoal,
    first: u32,
    those: &[u32],
) -> Result<Vec<u32>, NoMemory>
    requires from { All (λ number. first ≤ number) those.now }
    requires within { All (λ number. number < first + count_of numbers.now ranges.now) those.now }
    ensures { IfOk result (λ kept. kept.items
        ≡ among numbers.now statics.now ranges.now goal.now first those.now) }
{
    let test = Test::of(alloc, numbers, statics, goal)?;
    let count = choice_count(numbers, ranges)?;
    let mut words = Vec::new(alloc);
    let mut slots = Vec::new(alloc);
    let mut kept = Vec::new(alloc);
    for number in those {
        let choice = *number - first;
        place_choice(&mut slots, 0, numbers, ranges, count, choice as usize)?;
        let may = test.may_yet_begin(&mut words, slots.as_slice())?;
        keep_choice(&mut kept, choice, may)?;
    }
    Ok(kept)
}

/// Those of the choices at which all of the parts may begin.
fn sifted(
    alloc: Global,
    numbers: &Numbers,
    statics: &Statics,
    ranges: &[u32],
    late: &[&NumberedGoal],
    choices: &[u32],
) -> Result<Vec<u32>, NoMemory>
    requires { All (λ number. number < count_of numbers.now ranges.now) choices.now }
    ensures { IfOk result (λ kept. kept.items ≡ filter (λ number. all_may_begin numbers.now
        statics.now (choice numbers.now ranges.now number) late.now) choices.now) }
{
    let count = choice_count(numbers, ranges)?;
    let mut words = Vec::new(alloc);
    let mut slots = Vec::new(alloc);
    let mut kept = Vec::new(alloc);
    for choice in choices {
        place_choice(&mut slots, 0, numbers, ranges, count, *choice as usize)?;
        let may = all_begin(numbers, statics, &mut words, slots.as_slice(), late)?;
        keep_choice(&mut kept, *choice, may)?;
    }
    Ok(kept)
}

/// Those of the choices, at which a precondition could begin without the objects of its
/// quantifiers, at which it may begin with them.
fn begun(
    alloc: Global,
    numbers: &Numbers,
    statics: &Statics,
    ranges: &[u32],
    goal: &NumberedGoal,
    choices: Vec<u32>,
) -> Result<Vec<u32>, NoMemory>
    requires within { All (λ number. number < count_of numbers.now ranges.now) choices.items }
    requires yet { All (λ number. may_yet_begin numbers.now statics.now
        (choice numbers.now ranges.now number) goal.now ≡ true) choices.items }
    ensures { IfOk result (λ kept. kept.items ≡ filter (λ number. may_begin numbers.now
        statics.now (choice numbers.now ranges.now number) goal.now) choices.items) }
{
    let late = late_parts(alloc, numbers, statics, goal)?;
    let late = late.as_slice();
    if late.is_empty() {
        return Ok(choices);
    }
    sifted(alloc, numbers, statics, ranges, late, choices.as_slice())
}

/// The numbers of the choices of one object of each range at which a precondition's hard part may
/// hold in some state that keeps what no step changes, rising.
pub(crate) fn candidates(
    alloc: Global,
    numbers: &Numbers,
    statics: &Statics,
    ranges: &[u32],
    goal: &NumberedGoal,
) -> Result<Vec<u32>, NoMemory>
    requires { count_of numbers.now ranges.now ≤ step_count_limit }
    ensures { IfOk result (λ kept. kept.items
        ≡ candidates_of numbers.now statics.now ranges.now goal.now) }
{
    let choices = open_choices(alloc, numbers, statics, ranges, goal)?;
    begun(alloc, numbers, statics, ranges, goal, choices)
}

/// The choices of these numbers, which follow on those of so many steps, at which a precondition's
/// hard part may hold in some state that keeps what no step changes.
pub(crate) fn candidates_among(
    alloc: Global,
    numbers: &Numbers,
    statics: &Statics,
    ranges: &[u32],
    goal: &NumberedGoal,
    first: u32,
    those: &[u32],
) -> Result<Vec<u32>, NoMemory>
    requires from { All (λ number. first ≤ number) those.now }
    requires within { All (λ number. number < first + count_of numbers.now ranges.now) those.now }
    ensures { IfOk result (λ kept. kept.items
        ≡ begin_among numbers.now statics.now ranges.now goal.now first those.now) }
{
    let choices = open_among(alloc, numbers, statics, ranges, goal, first, those)?;
    begun(alloc, numbers, statics, ranges, goal, choices)
}
