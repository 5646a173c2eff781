//! The sections of a domain.

ghost use Rattle.std.specs.Prelude.{◌≡◌};
ghost use Rattle.std.specs.Str.{str_to_ascii_lowercase};
ghost use Rattle.p3_places.specs.Places.{no_domain_section, with_domain_section, domain_rest, domain_once, domain_word};

use crate::state::{Class, DomainKeyword, DomainSeen, Items, Place, Progress, Rest, Slot, State};
use p3_lexer::is;

pub(crate) fn no_domain_section() -> DomainSeen
    ensures { result ≡ no_domain_section }
{
    DomainSeen {
        requirements: false,
        types: false,
        constants: false,
        predicates: false,
        functions: false,
        constraints: false,
    }
}

pub(crate) fn with_domain_section(seen: DomainSeen, keyword: DomainKeyword) -> DomainSeen
    ensures { result ≡ with_domain_section seen keyword }
{
    match keyword {
        DomainKeyword::Requirements => DomainSeen {
            requirements: true,
            ..seen
        },
        DomainKeyword::Types => DomainSeen {
            types: true,
            ..seen
        },
        DomainKeyword::Constants => DomainSeen {
            constants: true,
            ..seen
        },
        DomainKeyword::Predicates => DomainSeen {
            predicates: true,
            ..seen
        },
        DomainKeyword::Functions => DomainSeen {
            functions: true,
            ..seen
        },
        DomainKeyword::Constraints => DomainSeen {
            constraints: true,
            ..seen
        },
    }
}

/// What stands behind a keyword.
fn domain_rest(keyword: DomainKeyword) -> Rest
    ensures { result ≡ domain_rest keyword }
{
    match keyword {
        DomainKeyword::Requirements => Rest::Many(Slot::Word(Class::Keyword)),
        DomainKeyword::Types | DomainKeyword::Constants => {
            Rest::Typed(Items::Names, Progress::Start)
        }
        DomainKeyword::Predicates => Rest::Many(Slot::List(Place::PredicateHeader)),
        DomainKeyword::Functions => Rest::Typed(Items::Functions, Progress::Start),
        DomainKeyword::Constraints => Rest::One(Slot::List(Place::ConstraintOrEmpty)),
    }
}

fn domain_once(seen: bool, keyword: DomainKeyword) -> Option<State>
    ensures { result ≡ domain_once seen keyword }
{
    if seen {
        None
    } else {
        Some(State::DomainSection(keyword, domain_rest(keyword)))
    }
}

/// What is to come behind the keyword of a domain's section.
pub(crate) fn domain_word(seen: DomainSeen, word: &[u8]) -> Option<State>
    ensures { result ≡ domain_word seen (str_to_ascii_lowercase word.now) }
{
    if is(word, b":requirements") {
        domain_once(seen.requirements, DomainKeyword::Requirements)
    } else if is(word, b":types") {
        domain_once(seen.types, DomainKeyword::Types)
    } else if is(word, b":constants") {
        domain_once(seen.constants, DomainKeyword::Constants)
    } else if is(word, b":predicates") {
        domain_once(seen.predicates, DomainKeyword::Predicates)
    } else if is(word, b":functions") {
        domain_once(seen.functions, DomainKeyword::Functions)
    } else if is(word, b":constraints") {
        domain_once(seen.constraints, DomainKeyword::Constraints)
    } else if is(word, b":action") {
        Some(State::Action)
    } else {
        None
    }
}
