//! What is still to come in a list.

ghost use Rattle.std.specs.Prelude.{◌≡◌};
ghost use Rattle.std.specs.Str.{str_to_ascii_lowercase};
ghost use Rattle.p3_places.specs.Places.{is_word_of, takes_word, takes, list_of, item_slot, type_slot, next_slot, behind, behind_item, may_end, ordinary, rest_word, rest_list};
ghost use Rattle.p3_places.specs.Walks.{only_if};

use crate::state::{Class, Items, Place, Progress, Rest, Slot};
use p3_lexer::{begins_with_colon, is, is_decimal, is_name, is_variable};

/// Whether a word is of the class.
fn is_word_of(class: Class, word: &[u8]) -> bool
    ensures { result ≡ is_word_of class (str_to_ascii_lowercase word.now) }
{
    match class {
        Class::Name => is_name(word),
        Class::Variable => is_variable(word),
        Class::Term => is_name(word) || is_variable(word),
        Class::Number => is_decimal(word),
        Class::Keyword => begins_with_colon(word),
        Class::Direction => is(word, b"minimize") || is(word, b"maximize"),
        Class::End => is(word, b"end"),
        Class::Numeric => is_decimal(word) || is(word, b"total-cost"),
        Class::NumberType => is(word, b"number"),
    }
}

fn takes_word(slot: &Slot, word: &[u8]) -> bool
    ensures { result ≡ takes_word slot.now (str_to_ascii_lowercase word.now) }
{
    match slot {
        Slot::Word(class) | Slot::Either(class, _) => is_word_of(*class, word),
        Slot::List(_) => false,
    }
}

fn list_of(slot: &Slot) -> Option<Place>
    ensures { result ≡ list_of slot.now }
{
    match slot {
        Slot::Word(_) => None,
        Slot::List(place) | Slot::Either(_, place) => Some(*place),
    }
}

fn item_slot(items: Items) -> Slot
    ensures { result ≡ item_slot items }
{
    match items {
        Items::Variables => Slot::Word(Class::Variable),
        Items::Names => Slot::Word(Class::Name),
        Items::Functions => Slot::List(Place::FunctionHeader),
    }
}

fn type_slot(items: Items) -> Slot
    ensures { result ≡ type_slot items }
{
    match items {
        Items::Variables => Slot::Either(Class::Name, Place::Either),
        Items::Names => Slot::Word(Class::Name),
        Items::Functions => Slot::Word(Class::NumberType),
    }
}

/// Passes the element that comes next.
pub(crate) fn pass_one(rest: &mut Rest)
    ensures { rest.new ≡ behind rest.old }
{
    match rest {
        Rest::Nothing | Rest::Many(_) => {}
        Rest::One(_) | Rest::Maybe(_) | Rest::Named(_) => *rest = Rest::Nothing,
        Rest::Two(_, later) => *rest = Rest::One(*later),
        Rest::Some(slot) => *rest = Rest::Many(*slot),
        Rest::OneOrTwo(slot) => *rest = Rest::Maybe(*slot),
        Rest::Typed(_, progress) => *progress = behind_item(*progress),
    }
}

/// How far items with types have come behind an item or a type.
fn behind_item(progress: Progress) -> Progress
    ensures { result ≡ behind_item progress }
{
    match progress {
        Progress::Start | Progress::Waiting => Progress::Waiting,
        Progress::Type => Progress::Start,
    }
}

pub(crate) fn may_end(rest: &Rest) -> bool
    ensures { result ≡ may_end rest.now }
{
    match rest {
        Rest::Nothing | Rest::Many(_) | Rest::Maybe(_) => true,
        Rest::Typed(_, Progress::Start | Progress::Waiting) => true,
        Rest::Typed(_, Progress::Type) => false,
        Rest::One(_) | Rest::Two(_, _) | Rest::Some(_) | Rest::OneOrTwo(_) | Rest::Named(_) => {
            false
        }
    }
}

/// Whether the word may come next.
fn takes(rest: &Rest, word: &[u8]) -> bool
    ensures { result ≡ takes (next_slot rest.now) (str_to_ascii_lowercase word.now) }
{
    match rest {
        Rest::Nothing | Rest::Named(_) => false,
        Rest::One(slot)
        | Rest::Two(slot, _)
        | Rest::Many(slot)
        | Rest::Some(slot)
        | Rest::OneOrTwo(slot)
        | Rest::Maybe(slot) => takes_word(slot, word),
        Rest::Typed(items, Progress::Start | Progress::Waiting) => {
            takes_word(&item_slot(*items), word)
        }
        Rest::Typed(items, Progress::Type) => takes_word(&type_slot(*items), word),
    }
}

fn pass_ordinary(rest: &mut Rest, word: &[u8]) -> bool
    ensures { only_if result rest.new ≡ ordinary rest.old (str_to_ascii_lowercase word.now) }
{
    if takes(rest, word) {
        pass_one(rest);
        true
    } else {
        false
    }
}

/// Passes a word, where it may come next.
pub(crate) fn pass_word(rest: &mut Rest, word: &[u8]) -> bool
    ensures { only_if result rest.new ≡ rest_word rest.old (str_to_ascii_lowercase word.now) }
{
    match rest {
        Rest::Named(place) => {
            let place = *place;
            *rest = Rest::One(Slot::List(place));
            is_name(word)
        }
        Rest::Typed(items, Progress::Waiting) if is(word, b"-") => {
            *rest = Rest::Typed(*items, Progress::Type);
            true
        }
        _ => pass_ordinary(rest, word),
    }
}

/// The place of a list that may come next.
pub(crate) fn rest_list(rest: &Rest) -> Option<Place>
    ensures { result ≡ rest_list rest.now }
{
    match rest {
        Rest::Nothing => None,
        Rest::Named(place) => Some(*place),
        Rest::One(slot)
        | Rest::Two(slot, _)
        | Rest::Many(slot)
        | Rest::Some(slot)
        | Rest::OneOrTwo(slot)
        | Rest::Maybe(slot) => list_of(slot),
        Rest::Typed(items, Progress::Start | Progress::Waiting) => list_of(&item_slot(*items)),
        Rest::Typed(items, Progress::Type) => list_of(&type_slot(*items)),
    }
}
