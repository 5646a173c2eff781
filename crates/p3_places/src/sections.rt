//! The sections of a problem.

ghost use Rattle.std.specs.Prelude.{◌≡◌};
ghost use Rattle.std.specs.Str.{str_to_ascii_lowercase};
ghost use Rattle.p3_places.specs.Places.{has_all, has_needed, no_section, with_section, once, section_word};

use crate::state::{Class, Items, Keyword, Place, Progress, Rest, Seen, Slot, State};
use p3_lexer::is;

pub(crate) fn has_all(seen: Seen) -> bool
    ensures { result ≡ has_all seen }
{
    seen.domain
        && seen.init
        && seen.goal
        && seen.requirements
        && seen.objects
        && seen.constraints
        && seen.metric
}

pub(crate) fn has_needed(seen: Seen) -> bool
    ensures { result ≡ has_needed seen }
{
    seen.domain && seen.init && seen.goal
}

pub(crate) fn no_section() -> Seen
    ensures { result ≡ no_section }
{
    Seen {
        domain: false,
        requirements: false,
        objects: false,
        init: false,
        goal: false,
        constraints: false,
        metric: false,
    }
}

pub(crate) fn with_section(seen: Seen, keyword: Keyword) -> Seen
    ensures { result ≡ with_section seen keyword }
{
    match keyword {
        Keyword::Domain => Seen {
            domain: true,
            ..seen
        },
        Keyword::Requirements => Seen {
            requirements: true,
            ..seen
        },
        Keyword::Objects => Seen {
            objects: true,
            ..seen
        },
        Keyword::Init => Seen { init: true, ..seen },
        Keyword::Goal => Seen { goal: true, ..seen },
        Keyword::Constraints => Seen {
            constraints: true,
            ..seen
        },
        Keyword::Metric => Seen {
            metric: true,
            ..seen
        },
    }
}

fn once(seen: bool, keyword: Keyword, rest: Rest) -> Option<State>
    ensures { result ≡ once seen keyword rest }
{
    if seen {
        None
    } else {
        Some(State::Section(keyword, rest))
    }
}

/// What is to come behind a section's keyword.
pub(crate) fn section_word(seen: Seen, word: &[u8]) -> Option<State>
    ensures { result ≡ section_word seen (str_to_ascii_lowercase word.now) }
{
    if is(word, b":domain") {
        once(
            seen.domain,
            Keyword::Domain,
            Rest::One(Slot::Word(Class::Name)),
        )
    } else if is(word, b":requirements") {
        once(
            seen.requirements,
            Keyword::Requirements,
            Rest::Many(Slot::Word(Class::Keyword)),
        )
    } else if is(word, b":objects") {
        once(
            seen.objects,
            Keyword::Objects,
            Rest::Typed(Items::Names, Progress::Start),
        )
    } else if is(word, b":init") {
        once(
            seen.init,
            Keyword::Init,
            Rest::Many(Slot::List(Place::Init)),
        )
    } else if is(word, b":goal") {
        once(
            seen.goal,
            Keyword::Goal,
            Rest::One(Slot::List(Place::PreGoalOrEmpty)),
        )
    } else if is(word, b":constraints") {
        once(
            seen.constraints,
            Keyword::Constraints,
            Rest::One(Slot::List(Place::ConstraintOrEmpty)),
        )
    } else if is(word, b":metric") {
        once(
            seen.metric,
            Keyword::Metric,
            Rest::Two(
                Slot::Word(Class::Direction),
                Slot::Either(Class::Numeric, Place::Num),
            ),
        )
    } else {
        None
    }
}
