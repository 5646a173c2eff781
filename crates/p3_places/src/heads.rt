//! The first word of a list.

ghost use Rattle.std.specs.Prelude.{◌≡◌, if◌then◌else◌, Some, None};
ghost use Rattle.std.specs.Str.{str_to_ascii_lowercase};
ghost use Rattle.p3_places.specs.Places.{terms, names, quantified, one_of, two_of, many_of, rest_if, formula_head, goal_head, modal_head, inner_head, constraint_head, num_slot, num_head, init_head, amount_slot, increase_rest, effect_head, in_list, head_word};
ghost use Rattle.p3_places.specs.Walks.{only_if};

use crate::rests::pass_word;
use crate::state::{Class, Items, Place, Progress, Rest, Slot, State};
use p3_lexer::{is, is_function_name, is_predicate_name};

fn terms() -> Rest
    ensures { result ≡ terms }
{
    Rest::Many(Slot::Word(Class::Term))
}

fn names() -> Rest
    ensures { result ≡ names }
{
    Rest::Many(Slot::Word(Class::Name))
}

fn quantified(place: Place) -> Rest
    ensures { result ≡ quantified place }
{
    Rest::Two(Slot::List(Place::Variables), Slot::List(place))
}

fn one_of(place: Place) -> Rest
    ensures { result ≡ one_of place }
{
    Rest::One(Slot::List(place))
}

fn two_of(place: Place) -> Rest
    ensures { result ≡ two_of place }
{
    Rest::Two(Slot::List(place), Slot::List(place))
}

fn many_of(place: Place) -> Rest
    ensures { result ≡ many_of place }
{
    Rest::Many(Slot::List(place))
}

fn rest_if(test: bool, rest: Rest) -> Option<Rest>
    ensures { result ≡ rest_if test rest }
{
    if test { Some(rest) } else { None }
}

pub(crate) fn formula_head(word: &[u8]) -> Option<Rest>
    ensures { result ≡ formula_head (str_to_ascii_lowercase word.now) }
{
    if is(word, b"and") {
        Some(many_of(Place::Formula))
    } else if is(word, b"or") {
        Some(many_of(Place::Formula))
    } else if is(word, b"not") {
        Some(one_of(Place::Formula))
    } else if is(word, b"imply") {
        Some(two_of(Place::Formula))
    } else if is(word, b"exists") {
        Some(quantified(Place::Formula))
    } else if is(word, b"forall") {
        Some(quantified(Place::Formula))
    } else if is(word, b"=") {
        Some(Rest::Two(Slot::Word(Class::Term), Slot::Word(Class::Term)))
    } else {
        rest_if(is_predicate_name(word), terms())
    }
}

pub(crate) fn goal_head(word: &[u8]) -> Option<Rest>
    ensures { result ≡ goal_head (str_to_ascii_lowercase word.now) }
{
    if is(word, b"and") {
        Some(many_of(Place::PreGoal))
    } else if is(word, b"forall") {
        Some(quantified(Place::PreGoal))
    } else if is(word, b"preference") {
        Some(Rest::Named(Place::Formula))
    } else {
        formula_head(word)
    }
}

fn modal_head(word: &[u8]) -> Option<Rest>
    ensures { result ≡ modal_head (str_to_ascii_lowercase word.now) }
{
    if is(word, b"at") {
        Some(Rest::Two(Slot::Word(Class::End), Slot::List(Place::Formula)))
    } else if is(word, b"always") {
        Some(one_of(Place::Formula))
    } else if is(word, b"sometime") {
        Some(one_of(Place::Formula))
    } else if is(word, b"at-most-once") {
        Some(one_of(Place::Formula))
    } else if is(word, b"sometime-after") {
        Some(two_of(Place::Formula))
    } else if is(word, b"sometime-before") {
        Some(two_of(Place::Formula))
    } else {
        None
    }
}

fn inner_head(word: &[u8]) -> Option<Rest>
    ensures { result ≡ inner_head (str_to_ascii_lowercase word.now) }
{
    if is(word, b"and") {
        Some(many_of(Place::Inner))
    } else if is(word, b"forall") {
        Some(quantified(Place::Inner))
    } else {
        modal_head(word)
    }
}

fn constraint_head(word: &[u8]) -> Option<Rest>
    ensures { result ≡ constraint_head (str_to_ascii_lowercase word.now) }
{
    if is(word, b"preference") {
        Some(Rest::Named(Place::Inner))
    } else if is(word, b"and") {
        Some(many_of(Place::Constraint))
    } else if is(word, b"forall") {
        Some(quantified(Place::Constraint))
    } else {
        modal_head(word)
    }
}

fn num_slot() -> Slot
    ensures { result ≡ num_slot }
{
    Slot::Either(Class::Numeric, Place::Num)
}

fn num_head(word: &[u8]) -> Option<Rest>
    ensures { result ≡ num_head (str_to_ascii_lowercase word.now) }
{
    if is(word, b"total-cost") {
        Some(Rest::Nothing)
    } else if is(word, b"is-violated") {
        Some(Rest::One(Slot::Word(Class::Name)))
    } else if is(word, b"-") {
        Some(Rest::OneOrTwo(num_slot()))
    } else if is(word, b"+") {
        Some(Rest::Some(num_slot()))
    } else if is(word, b"*") {
        Some(Rest::Some(num_slot()))
    } else {
        None
    }
}

fn init_head(word: &[u8]) -> Option<Rest>
    ensures { result ≡ init_head (str_to_ascii_lowercase word.now) }
{
    if is(word, b"not") {
        Some(one_of(Place::InitAtom))
    } else if is(word, b"=") {
        Some(Rest::Two(Slot::List(Place::InitFunction), Slot::Word(Class::Number)))
    } else {
        rest_if(is_predicate_name(word), names())
    }
}

/// A number, or the value of a function.
fn amount_slot() -> Slot
    ensures { result ≡ amount_slot }
{
    Slot::Either(Class::Number, Place::Atom)
}

fn increase_rest(free: bool) -> Option<Rest>
    ensures { result ≡ increase_rest free }
{
    if free {
        Some(Rest::Two(Slot::List(Place::TotalCost), amount_slot()))
    } else {
        None
    }
}

/// No increase stands below `forall` and `when`.
fn effect_head(free: bool, word: &[u8]) -> Option<Rest>
    ensures { result ≡ effect_head free (str_to_ascii_lowercase word.now) }
{
    if is(word, b"and") {
        Some(many_of(Place::Effect(free)))
    } else if is(word, b"forall") {
        Some(quantified(Place::Effect(false)))
    } else if is(word, b"when") {
        Some(Rest::Two(Slot::List(Place::Formula), Slot::List(Place::Effect(false))))
    } else if is(word, b"not") {
        Some(one_of(Place::Atom))
    } else if is(word, b"increase") {
        increase_rest(free)
    } else {
        rest_if(is_predicate_name(word), terms())
    }
}

/// A header's variables.
fn variables() -> Rest
    ensures { result ≡ Rest.Typed Items.Variables Progress.Start }
{
    Rest::Typed(Items::Variables, Progress::Start)
}

/// Puts a state in the place of another, where the test passes.
fn put_if(test: bool, state: &mut State, next: State) -> bool
    ensures { only_if result state.new ≡ (if test then Some next else None) }
{
    *state = next;
    test
}

/// Begins a list with what is to come in it, where that is known.
fn begin_with(state: &mut State, rest: Option<Rest>) -> bool
    ensures { only_if result state.new ≡ in_list rest }
{
    match rest {
        Some(rest) => {
            *state = State::Rest(rest);
            true
        }
        None => false,
    }
}

/// Begins a list of variables.
fn begin_variables(state: &mut State, word: &[u8]) -> bool
    ensures { only_if result state.new
        ≡ head_word Place.Variables (str_to_ascii_lowercase word.now) }
{
    let mut rest = variables();
    let goes = pass_word(&mut rest, word);
    *state = State::Rest(rest);
    goes
}

/// Begins the list at a place with a word, where it may come first.
pub(crate) fn begin(state: &mut State, place: Place, word: &[u8]) -> bool
    ensures { only_if result state.new ≡ head_word place (str_to_ascii_lowercase word.now) }
{
    let one_name = Rest::One(Slot::Word(Class::Name));
    let some_names = Rest::Some(Slot::Word(Class::Name));
    match place {
        Place::Domain => put_if(is(word, b"define"), state, State::DomainDefined),
        Place::Problem => put_if(is(word, b"define"), state, State::Defined),
        Place::DomainTitle => begin_with(state, rest_if(is(word, b"domain"), one_name)),
        Place::ProblemTitle => begin_with(state, rest_if(is(word, b"problem"), one_name)),
        Place::Variables => begin_variables(state, word),
        Place::Either => begin_with(state, rest_if(is(word, b"either"), some_names)),
        Place::Formula => begin_with(state, formula_head(word)),
        Place::PreGoal | Place::PreGoalOrEmpty => begin_with(state, goal_head(word)),
        Place::Constraint | Place::ConstraintOrEmpty => begin_with(state, constraint_head(word)),
        Place::Inner => begin_with(state, inner_head(word)),
        Place::Num => begin_with(state, num_head(word)),
        Place::Init => begin_with(state, init_head(word)),
        Place::InitAtom => begin_with(state, rest_if(is_predicate_name(word), names())),
        Place::InitFunction => begin_with(state, rest_if(is_function_name(word), names())),
        Place::Atom => begin_with(state, rest_if(is_predicate_name(word), terms())),
        Place::Effect(free) => begin_with(state, effect_head(free, word)),
        Place::EffectOrEmpty => begin_with(state, effect_head(true, word)),
        Place::TotalCost => begin_with(state, rest_if(is(word, b"total-cost"), Rest::Nothing)),
        Place::PredicateHeader => begin_with(state, rest_if(is_predicate_name(word), variables())),
        Place::FunctionHeader => begin_with(state, rest_if(is_function_name(word), variables())),
    }
}
