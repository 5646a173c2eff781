//! One token more.

ghost use Rattle.std.specs.Prelude.{◌≡◌};
ghost use Rattle.std.specs.Str.{str_to_ascii_lowercase};
ghost use Rattle.p3_places.specs.Places.{with_domain_list, no_part, action_name, on_word, on_open, is_final, with_list, after, may_be_empty, part_once, part_word};
ghost use Rattle.p3_places.specs.Walks.{only_if};

use crate::domain_sections::{domain_word, no_domain_section, with_domain_section};
use crate::heads::begin;
use crate::rests;
use crate::rests::{may_end, pass_one, rest_list};
use crate::sections::{has_all, has_needed, no_section, section_word, with_section};
use crate::state::{DomainSeen, PartsSeen, Place, Seen, State};
use p3_lexer::{is, is_name};

fn may_be_empty(place: Place) -> bool
    ensures { result ≡ may_be_empty place }
{
    matches!(
        place,
        Place::Variables | Place::PreGoalOrEmpty | Place::ConstraintOrEmpty | Place::EffectOrEmpty
    )
}

fn no_part() -> PartsSeen
    ensures { result ≡ no_part }
{
    PartsSeen {
        parameters: false,
        precondition: false,
        effect: false,
    }
}

/// What is to come behind the name of an action.
fn action_name(word: &[u8]) -> Option<State>
    ensures { result ≡ action_name (str_to_ascii_lowercase word.now) }
{
    if is_name(word) {
        Some(State::Parts(no_part()))
    } else {
        None
    }
}

fn part_once(was: bool, seen: PartsSeen, place: Place) -> Option<State>
    ensures { result ≡ part_once was seen place }
{
    if was {
        None
    } else {
        Some(State::Part(seen, place))
    }
}

/// What is to come behind a part's keyword.
fn part_word(seen: PartsSeen, word: &[u8]) -> Option<State>
    ensures { result ≡ part_word seen (str_to_ascii_lowercase word.now) }
{
    if is(word, b":parameters") {
        let later = PartsSeen {
            parameters: true,
            ..seen
        };
        part_once(seen.parameters, later, Place::Variables)
    } else if is(word, b":precondition") {
        let later = PartsSeen {
            precondition: true,
            ..seen
        };
        part_once(seen.precondition, later, Place::PreGoalOrEmpty)
    } else if is(word, b":effect") {
        let later = PartsSeen {
            effect: true,
            ..seen
        };
        part_once(seen.effect, later, Place::EffectOrEmpty)
    } else {
        None
    }
}

/// Puts a state in the place of another, where there is one.
fn put(state: &mut State, next: Option<State>) -> bool
    ensures { only_if result state.new ≡ next }
{
    match next {
        Some(next) => {
            *state = next;
            true
        }
        None => false,
    }
}

/// Leads a list on by a word, where it may stand there.
pub(crate) fn pass_word(state: &mut State, word: &[u8]) -> bool
    ensures { only_if result state.new ≡ on_word state.old (str_to_ascii_lowercase word.now) }
{
    match state {
        State::Head(place) => {
            let place = *place;
            begin(state, place, word)
        }
        State::Rest(rest) => rests::pass_word(rest, word),
        State::Section(_, rest) => rests::pass_word(rest, word),
        State::DomainSection(_, rest) => rests::pass_word(rest, word),
        State::Parts(seen) => {
            let seen = *seen;
            put(state, part_word(seen, word))
        }
        State::SectionHead(seen) => {
            let seen = *seen;
            put(state, section_word(seen, word))
        }
        State::DomainHead(seen) => {
            let seen = *seen;
            put(state, domain_word(seen, word))
        }
        State::Action => put(state, action_name(word)),
        State::Part(_, _)
        | State::Defined
        | State::Sections(_)
        | State::DomainDefined
        | State::DomainSections(_) => false,
    }
}

/// The state in which a list begins, where one may open.
pub(crate) fn on_open(state: &State) -> Option<State>
    ensures { result ≡ on_open state.now }
{
    match state {
        State::Head(_)
        | State::SectionHead(_)
        | State::DomainHead(_)
        | State::Action
        | State::Parts(_) => None,
        State::Part(_, place) => Some(State::Head(*place)),
        State::Rest(rest) | State::Section(_, rest) | State::DomainSection(_, rest) => {
            Some(State::Head(rest_list(rest)?))
        }
        State::Defined => Some(State::Head(Place::ProblemTitle)),
        State::DomainDefined => Some(State::Head(Place::DomainTitle)),
        State::DomainSections(seen) => Some(State::DomainHead(*seen)),
        State::Sections(seen) => {
            if has_all(*seen) {
                None
            } else {
                Some(State::SectionHead(*seen))
            }
        }
    }
}

/// Whether a list may end.
pub(crate) fn is_final(state: &State) -> bool
    ensures { result ≡ is_final state.now }
{
    match state {
        State::Parts(_) | State::DomainSections(_) => true,
        State::Part(_, _) | State::Action => false,
        State::Head(place) => may_be_empty(*place),
        State::Rest(rest) | State::Section(_, rest) | State::DomainSection(_, rest) => {
            may_end(rest)
        }
        State::Defined | State::SectionHead(_) | State::DomainDefined | State::DomainHead(_) =>
            false,
        State::Sections(seen) => has_needed(*seen),
    }
}

fn with_list(seen: Seen, last: &State) -> State
    ensures { result ≡ with_list seen last.now }
{
    match last {
        State::Section(keyword, _) => State::Sections(with_section(seen, *keyword)),
        _ => State::Sections(seen),
    }
}

fn with_domain_list(seen: DomainSeen, last: &State) -> State
    ensures { result ≡ with_domain_list seen last.now }
{
    match last {
        State::DomainSection(keyword, _) => {
            State::DomainSections(with_domain_section(seen, *keyword))
        }
        _ => State::DomainSections(seen),
    }
}

/// Leads a list on by a list, which ended in the state given last.
pub(crate) fn pass_list(above: &mut State, last: &State)
    ensures { above.new ≡ after above.old last.now }
{
    match above {
        State::Head(_)
        | State::SectionHead(_)
        | State::DomainHead(_)
        | State::Action
        | State::Parts(_) => {}
        State::Part(seen, _) => *above = State::Parts(*seen),
        State::Rest(rest) => pass_one(rest),
        State::Section(_, rest) => pass_one(rest),
        State::DomainSection(_, rest) => pass_one(rest),
        State::Defined => *above = State::Sections(no_section()),
        State::Sections(seen) => *above = with_list(*seen, last),
        State::DomainDefined => *above = State::DomainSections(no_domain_section()),
        State::DomainSections(seen) => *above = with_domain_list(*seen, last),
    }
}
