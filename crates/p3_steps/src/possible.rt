//! Whether a condition may hold at objects, where all are chosen or some are still to be.

ghost use Rattle.std.specs.Prelude.{◌≡◌, ◌<◌, ◌++◌, true, take, IfOk, OnOk};
ghost use Rattle.std.specs.Bool.{OnTrue};
ghost use Rattle.p3_numbers.specs.Choices.{choice, choice_count as count_of};
ghost use Rattle.p3_numbers.specs.Slots.{bound};
ghost use Rattle.p3_expansion.specs.Meanings.{each_or_some};
ghost use Rattle.p3_steps.specs.Late.{MayAsWished};
ghost use Rattle.p3_steps.specs.Possible.{
  are_chosen as all_chosen,
  atom_may as atom_may_be,
  bodies_may,
  condition_may as may_hold,
  equality_may as equality_may_be,
  has_truth as with_truth,
  is_chosen as one_chosen,
};

use p3_base::NoMemory;
use p3_expansion::{Statics, are_same, choice_count, object_at, objects_of, place_choice, spell};
use p3_numbers::{NumberedArgument, NumberedCondition, Numbers};

/// Whether the argument's object is chosen.
fn is_chosen(slots: &[u32], arg: NumberedArgument) -> bool
    ensures { result ≡ one_chosen slots.now arg }
{
    match arg {
        NumberedArgument::Slot(place) => (place as usize) < slots.len(),
        NumberedArgument::Object(_) => true,
    }
}

/// Whether the objects of all arguments are chosen.
fn are_chosen(slots: &[u32], args: &[NumberedArgument]) -> bool
    ensures { result ≡ all_chosen slots.now args.now }
{
    args.iter().all(|arg| is_chosen(slots, *arg))
}

/// The truth, or its opposite.
fn has_truth(wish: bool, truth: bool) -> bool
    ensures { result ≡ with_truth wish truth }
{
    if wish { truth } else { !truth }
}

/// Whether the atom may have the truth.
fn atom_may(
    numbers: &Numbers,
    statics: &Statics,
    words: &mut Vec<u32>,
    slots: &[u32],
    predicate: u32,
    args: &[NumberedArgument],
    wish: bool,
) -> Result<bool, NoMemory>
    ensures { IfOk result (λ may. may
        ≡ atom_may_be numbers.now statics.now slots.now predicate args.now wish) }
{
    if !are_chosen(slots, args) {
        return Ok(true);
    }
    spell(words, slots, predicate, args)?;
    if !statics.is_decided(numbers, words.as_slice()) {
        return Ok(true);
    }
    Ok(has_truth(wish, statics.facts.has(words.as_slice())))
}

/// Whether the equality may have the truth.
fn equality_may(slots: &[u32], left: NumberedArgument, right: NumberedArgument, wish: bool) -> bool
    ensures { result ≡ equality_may_be slots.now left right wish }
{
    if is_chosen(slots, left) && is_chosen(slots, right) {
        return has_truth(wish, are_same(slots, left, right));
    }
    true
}

/// Whether a comparison, which no fact is looked up for, tells whether the condition may have the
/// truth, and it may be true exactly where that is wished.
fn is_compared(slots: &[u32], condition: &NumberedCondition, wish: bool) -> bool
    ensures { OnTrue result (MayAsWished slots.now condition.now wish) }
{
    match condition {
        NumberedCondition::Equal(left, right) => equality_may(slots, *left, *right, wish) == wish,
        NumberedCondition::Not(part) => match part.get() {
            NumberedCondition::Equal(left, right) => {
                equality_may(slots, *left, *right, !wish) == wish
            }
            _ => false,
        },
        _ => false,
    }
}

/// Whether the condition may have the truth. Where the slots have the whole of the variables
/// outside it, the objects of quantifiers are chosen in turn, until they decide.
#[cycle(conditions)]
#[tactic(auto, using(crate::proofs::PossibleLemmas::condition_laws))]
pub(crate) fn condition_may(
    numbers: &Numbers,
    statics: &Statics,
    words: &mut Vec<u32>,
    whole: bool,
    slots: &[u32],
    condition: &NumberedCondition,
    wish: bool,
) -> Result<bool, NoMemory>
    ensures { IfOk result (λ may. may
        ≡ may_hold numbers.now statics.now whole slots.now condition.now wish) }
{
    match condition {
        NumberedCondition::Atom { predicate, args } => {
            let args = args.items();
            let may = atom_may(numbers, statics, words, slots, *predicate, args, wish)?;
            Ok(may)
        }
        NumberedCondition::Equal(left, right) => Ok(equality_may(slots, *left, *right, wish)),
        NumberedCondition::And(parts) => {
            let parts = parts.items();
            let may = parts_may(numbers, statics, words, whole, slots, parts, wish, wish)?;
            Ok(may)
        }
        NumberedCondition::Or(parts) => {
            let parts = parts.items();
            let may = parts_may(numbers, statics, words, whole, slots, parts, !wish, wish)?;
            Ok(may)
        }
        NumberedCondition::Not(part) => {
            let may = condition_may(numbers, statics, words, whole, slots, part.get(), !wish)?;
            Ok(may)
        }
        NumberedCondition::Imply(first, second) => {
            if is_compared(slots, second.get(), wish) {
                return Ok(wish);
            }
            let one = condition_may(numbers, statics, words, whole, slots, first.get(), !wish)?;
            if one == wish {
                return Ok(wish);
            }
            let other = condition_may(numbers, statics, words, whole, slots, second.get(), wish)?;
            Ok(other)
        }
        NumberedCondition::Exists(ranges, body) => {
            let (ranges, body) = (ranges.items(), body.get());
            let may = body_may(
                numbers, statics, words, whole, slots, ranges, body, !wish, wish,
            )?;
            Ok(may)
        }
        NumberedCondition::Forall(ranges, body) => {
            let (ranges, body) = (ranges.items(), body.get());
            let may = body_may(
                numbers, statics, words, whole, slots, ranges, body, wish, wish,
            )?;
            Ok(may)
        }
    }
}

/// Whether each of the parts may have the truth, or else one of them.
#[cycle(conditions)]
fn parts_may(
    numbers: &Numbers,
    statics: &Statics,
    words: &mut Vec<u32>,
    whole: bool,
    slots: &[u32],
    parts: &[NumberedCondition],
    every: bool,
    wish: bool,
) -> Result<bool, NoMemory>
    ensures { IfOk result (λ may. may ≡ each_or_some every
        (λ part. may_hold numbers.now statics.now whole slots.now part wish) parts.now) }
{
    for part in parts {
        if condition_may(numbers, statics, words, whole, slots, part, wish)? != every {
            return Ok(!every);
        }
    }
    Ok(every)
}

/// Whether the body under a quantifier may have the truth, at each choice of objects or else at
/// some.
#[cycle(conditions)]
fn body_may(
    numbers: &Numbers,
    statics: &Statics,
    words: &mut Vec<u32>,
    whole: bool,
    slots: &[u32],
    ranges: &[u32],
    body: &NumberedCondition,
    every: bool,
    wish: bool,
) -> Result<bool, NoMemory>
    ensures { IfOk result (λ may. may ≡ bodies_may numbers.now whole every
        (λ inner. may_hold numbers.now statics.now whole inner body.now wish)
        slots.now ranges.now) }
{
    if whole {
        let may = bodies_of(numbers, statics, words, slots, ranges, body, every, wish)?;
        return Ok(may);
    }
    if every {
        return Ok(true);
    }
    let may = condition_may(numbers, statics, words, false, slots, body, wish)?;
    Ok(may)
}

/// Puts the objects of the choice of that number behind the first objects in the slots: of one
/// range alone, as most quantifiers have, without a division.
pub(crate) fn place_inner(
    slots: &mut Vec<u32>,
    first: usize,
    numbers: &Numbers,
    ranges: &[u32],
    count: usize,
    number: usize,
) -> Result<(), NoMemory>
    requires count { count ≡ count_of numbers.now ranges.now }
    requires within { number < count }
    ensures { OnOk result
        (slots.new.items ≡ take first slots.old.items ++ choice numbers.now ranges.now number) }
{
    let [range] = ranges else {
        return place_choice(slots, first, numbers, ranges, count, number);
    };
    slots.truncate(first);
    slots.push(object_at(objects_of(numbers, *range), number))?;
    Ok(())
}

/// Whether the body may have the truth at each choice of one object of each range behind those in
/// the slots, or else at some.
#[cycle(conditions)]
fn bodies_of(
    numbers: &Numbers,
    statics: &Statics,
    words: &mut Vec<u32>,
    slots: &[u32],
    ranges: &[u32],
    body: &NumberedCondition,
    every: bool,
    wish: bool,
) -> Result<bool, NoMemory>
    ensures { IfOk result (λ may. may ≡ each_or_some every
        (λ inner. may_hold numbers.now statics.now true inner body.now wish)
        (bound numbers.now slots.now ranges.now)) }
{
    let count = choice_count(numbers, ranges)?;
    let mut inner = Vec::from_slice(*words.allocator(), slots)?;
    for choice in 0..count {
        place_inner(&mut inner, slots.len(), numbers, ranges, count, choice)?;
        if condition_may(numbers, statics, words, true, inner.as_slice(), body, wish)? != every {
            return Ok(!every);
        }
    }
    Ok(every)
}
