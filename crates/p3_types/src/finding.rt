//! Choices of objects by their names.

ghost use Rattle.std.specs.Prelude.{◌≡◌, ◌+◌, ◌<◌, ◌^◌, false, map, MatchOption};
ghost use Rattle.std.specs.List.{All};
ghost use Rattle.std.specs.Str.{str_to_ascii_lowercase};
ghost use Rattle.p3_task.specs.Names.{has_name};
ghost use Rattle.p3_numbers.specs.Slots.{name_at, range_at};
ghost use Rattle.p3_numbers.specs.Choices.{choice_count};
ghost use Rattle.p3_types.specs.Finds.{
  AreDistinct,
  IsRange,
  IsPlaceOf,
  IsNarrowed,
  IsChoiceOf,
};
ghost use Rattle.p3_types.specs.NameOrders.{IsNameOrder};

use crate::name_order::find_name;
use crate::steps::objects_of;
use p3_base::Name;
use p3_numbers::Numbers;

/// As what a step is found.
#[derive(Clone, Copy, Debug, PartialEq, Eq)]
pub enum Found {
    /// The step of that number.
    Number(u32),
    /// No action has its name.
    UnknownAction,
    /// Its arguments are not objects of the parameters' types.
    Arguments,
}

/// The choices that begin with the same objects: the number of the first, and how many they are.
#[derive(Clone, Copy, Debug)]
pub(crate) struct Stretch {
    /// The number of the first.
    pub first: usize,
    /// How many they are.
    pub count: usize,
}

/// The choices of arguments of an action.
#[derive(Clone, Copy, Debug)]
pub(crate) struct Block<'n> {
    /// The ranges of its parameters.
    pub ranges: &'n [u32],
    /// The number of the step of the first choice.
    pub first: u32,
    /// How many they are.
    pub count: u32,
}

/// The place in a range of the object with that name, in any case of its letters.
fn place_in(names: &[Name], order: &[u32], objects: &[u32], word: &[u8]) -> Option<usize>
    requires order { IsNameOrder names.now order.now }
    requires distinct { AreDistinct names.now }
    requires range { IsRange names.now objects.now }
    ensures { MatchOption result
        (has_name (map (name_at names.now) objects.now) (str_to_ascii_lowercase word.now) ≡ false)
        (IsPlaceOf names.now objects.now (str_to_ascii_lowercase word.now)) }
{
    let Some(object) = find_name(names, order, word) else {
        return None;
    };
    match objects.binary_search(&object) {
        Ok(place) => Some(place),
        Err(_) => None,
    }
}

/// The choices of the stretch whose next object has that name, in any case of its letters.
pub(crate) fn narrowed(
    names: &[Name],
    order: &[u32],
    objects: &[u32],
    word: &[u8],
    stretch: Stretch,
) -> Option<Stretch>
    requires order { IsNameOrder names.now order.now }
    requires distinct { AreDistinct names.now }
    requires range { IsRange names.now objects.now }
    requires bound { stretch.first + stretch.count < 2 ^ 32 }
    ensures { MatchOption result
        (has_name (map (name_at names.now) objects.now) (str_to_ascii_lowercase word.now) ≡ false)
        (IsNarrowed names.now objects.now stretch (str_to_ascii_lowercase word.now)) }
{
    let Some(place) = place_in(names, order, objects, word) else {
        return None;
    };
    let count = stretch.count / objects.len();
    let first = stretch.first + place * count;
    Some(Stretch { first, count })
}

/// The number of the choice of the objects with these names, among so many.
pub(crate) fn choice_number(
    numbers: &Numbers,
    order: &[u32],
    ranges: &[u32],
    args: &[Name],
    count: u32,
) -> Option<u32>
    requires order { IsNameOrder numbers.now.objects order.now }
    requires distinct { AreDistinct numbers.now.objects }
    requires ranges { All
        (λ range. IsRange numbers.now.objects (range_at numbers.now range))
        ranges.now }
    requires count { count ≡ choice_count numbers.now ranges.now }
    ensures { IsChoiceOf numbers.now ranges.now args.now result }
{
    if count == 0 {
        return None;
    }
    if args.len() != ranges.len() {
        return None;
    }
    let mut stretch = Stretch {
        first: 0,
        count: count as usize,
    };
    for place in 0..ranges.len() {
        let objects = objects_of(numbers, ranges[place]);
        let word = args[place].bytes();
        match narrowed(numbers.objects.items(), order, objects, word, stretch) {
            Some(inner) => stretch = inner,
            None => return None,
        }
    }
    Some(stretch.first as u32)
}
