//! The parts of a precondition that are tested when all objects are chosen: those that the objects
//! of quantifiers, with what no step changes, may rule out.

ghost use Rattle.std.specs.Prelude.{◌≡◌, ◌<◌, [], ◌∷◌, true, not, IfOk, OnOk};
ghost use Rattle.std.specs.Bool.{OnFalse, OnTrue};
ghost use Rattle.std.specs.List.{All, list_all};
ghost use Rattle.p3_numbers.specs.Choices.{choice_count as count_of};
ghost use Rattle.p3_numbers.specs.Slots.{bound};
ghost use Rattle.p3_expansion.specs.Statics.{is_decided};
ghost use Rattle.p3_steps.specs.Late.{
  AreLate,
  BodyMayAlways,
  IsTestedEarly,
  JoinsAllLate,
  JoinsLate,
  MayAlways,
  MayAlwaysBegin,
  NeedsNoTest,
  PartsMayAlways,
  all_begin as all_may_begin,
};
ghost use Rattle.p3_steps.specs.Possible.{may_begin};

use crate::possible::{condition_may, place_inner};
use p3_base::NoMemory;
use p3_expansion::{Statics, choice_count};
use p3_numbers::{NumberedCondition, NumberedGoal, Numbers};
use std::alloc::Global;

// ---- what need not be tested

/// Whether a condition has a quantifier.
#[cycle(quantifiers)]
#[tactic(auto, using(crate::proofs::PossibleLemmas::condition_laws))]
fn has_quantifier(condition: &NumberedCondition) -> bool
    ensures { OnFalse result (IsTestedEarly condition.now) }
{
    match condition {
        NumberedCondition::Atom { .. } => false,
        NumberedCondition::Equal(_, _) => false,
        NumberedCondition::And(parts) => some_have_quantifier(parts.items()),
        NumberedCondition::Or(parts) => some_have_quantifier(parts.items()),
        NumberedCondition::Not(part) => has_quantifier(part.get()),
        NumberedCondition::Imply(first, second) => {
            has_quantifier(first.get()) || has_quantifier(second.get())
        }
        NumberedCondition::Exists(_, _) => true,
        NumberedCondition::Forall(_, _) => true,
    }
}

/// Whether one of the parts has a quantifier.
#[cycle(quantifiers)]
fn some_have_quantifier(parts: &[NumberedCondition]) -> bool
    ensures { OnFalse result (All IsTestedEarly parts.now) }
{
    for part in parts {
        if has_quantifier(part) {
            return true;
        }
    }
    false
}

/// Whether a step may change the atoms of a predicate.
fn is_changed(numbers: &Numbers, statics: &Statics, predicate: u32) -> bool
    ensures { result ≡ not (is_decided numbers.now statics.now (predicate ∷ [])) }
{
    !statics.is_decided(numbers, &[predicate])
}

/// Whether a condition may have the truth at all objects, whatever holds at the start.
#[cycle(certain)]
#[tactic(auto, using(crate::proofs::PossibleLemmas::condition_laws))]
fn may_always(
    numbers: &Numbers,
    statics: &Statics,
    condition: &NumberedCondition,
    wish: bool,
) -> bool
    ensures { OnTrue result (MayAlways numbers.now statics.now condition.now wish) }
{
    match condition {
        NumberedCondition::Atom { predicate, .. } => is_changed(numbers, statics, *predicate),
        NumberedCondition::Equal(_, _) => false,
        NumberedCondition::And(parts) => {
            parts_may_always(numbers, statics, parts.items(), wish, wish)
        }
        NumberedCondition::Or(parts) => {
            parts_may_always(numbers, statics, parts.items(), !wish, wish)
        }
        NumberedCondition::Not(part) => may_always(numbers, statics, part.get(), !wish),
        NumberedCondition::Imply(first, second) => {
            let one = may_always(numbers, statics, first.get(), !wish);
            if one == wish {
                return wish;
            }
            may_always(numbers, statics, second.get(), wish)
        }
        NumberedCondition::Exists(ranges, body) => {
            body_may_always(numbers, statics, ranges.items(), body.get(), !wish, wish)
        }
        NumberedCondition::Forall(ranges, body) => {
            body_may_always(numbers, statics, ranges.items(), body.get(), wish, wish)
        }
    }
}

/// Whether each of the parts may have the truth at all objects, or else one of them.
#[cycle(certain)]
fn parts_may_always(
    numbers: &Numbers,
    statics: &Statics,
    parts: &[NumberedCondition],
    every: bool,
    wish: bool,
) -> bool
    ensures { OnTrue result (PartsMayAlways numbers.now statics.now every parts.now wish) }
{
    for part in parts {
        if may_always(numbers, statics, part, wish) != every {
            return !every;
        }
    }
    every
}

/// Whether there is a choice of one object of each range.
fn has_choice(numbers: &Numbers, ranges: &[u32]) -> bool
    ensures { OnTrue result (0 < count_of numbers.now ranges.now) }
{
    match choice_count(numbers, ranges) {
        Ok(count) => count > 0,
        Err(_) => true,
    }
}

/// Whether the body under a quantifier may have the truth at all objects.
#[cycle(certain)]
fn body_may_always(
    numbers: &Numbers,
    statics: &Statics,
    ranges: &[u32],
    body: &NumberedCondition,
    every: bool,
    wish: bool,
) -> bool
    ensures { OnTrue result
        (BodyMayAlways numbers.now statics.now every ranges.now body.now wish) }
{
    if every {
        return may_always(numbers, statics, body, wish);
    }
    if !has_choice(numbers, ranges) {
        return false;
    }
    may_always(numbers, statics, body, wish)
}

/// Whether a precondition may begin at all objects, whatever holds at the start.
#[cycle(certain_goals)]
#[tactic(auto, using(crate::proofs::PossibleLemmas::goal_laws))]
fn may_always_begin(numbers: &Numbers, statics: &Statics, goal: &NumberedGoal) -> bool
    ensures { OnTrue result (MayAlwaysBegin numbers.now statics.now goal.now) }
{
    match goal {
        NumberedGoal::Plain(condition) => may_always(numbers, statics, condition, true),
        NumberedGoal::Both(parts) => all_may_always_begin(numbers, statics, parts.items()),
        NumberedGoal::Each(_, body) => may_always_begin(numbers, statics, body.get()),
        NumberedGoal::Soft(_) => true,
    }
}

/// Whether each of the parts may begin at all objects.
#[cycle(certain_goals)]
fn all_may_always_begin(numbers: &Numbers, statics: &Statics, parts: &[NumberedGoal]) -> bool
    ensures { OnTrue result (All (MayAlwaysBegin numbers.now statics.now) parts.now) }
{
    for part in parts {
        if !may_always_begin(numbers, statics, part) {
            return false;
        }
    }
    true
}

// ---- the parts that are tested

/// Whether a part of a precondition that could begin so far may still fail.
#[tactic(auto, using(crate::proofs::PossibleLemmas::goal_laws))]
fn may_fail_late(numbers: &Numbers, statics: &Statics, goal: &NumberedGoal) -> bool
    ensures { OnFalse result (NeedsNoTest numbers.now statics.now goal.now) }
{
    match goal {
        NumberedGoal::Plain(condition) => {
            has_quantifier(condition) && !may_always(numbers, statics, condition, true)
        }
        NumberedGoal::Both(_) => true,
        NumberedGoal::Each(_, body) => !may_always_begin(numbers, statics, body.get()),
        NumberedGoal::Soft(_) => false,
    }
}

/// Puts the part behind those found, where it may fail late.
fn push_part<'t>(
    numbers: &Numbers,
    statics: &Statics,
    found: &mut Vec<&'t NumberedGoal>,
    goal: &'t NumberedGoal,
) -> Result<(), NoMemory>
    ensures { OnOk result
        (JoinsLate numbers.now statics.now goal.now found.old.items found.new.items) }
{
    if may_fail_late(numbers, statics, goal) {
        found.push(goal)?;
    }
    Ok(())
}

/// Puts the parts of a precondition that may fail late behind those found.
#[cycle(late)]
#[tactic(auto, using(crate::proofs::PossibleLemmas::goal_laws))]
fn push_late<'t>(
    numbers: &Numbers,
    statics: &Statics,
    found: &mut Vec<&'t NumberedGoal>,
    goal: &'t NumberedGoal,
) -> Result<(), NoMemory>
    ensures { OnOk result
        (JoinsLate numbers.now statics.now goal.now found.old.items found.new.items) }
{
    match goal {
        NumberedGoal::Both(parts) => {
            push_all_late(numbers, statics, found, parts.items())?;
            Ok(())
        }
        _ => {
            push_part(numbers, statics, found, goal)?;
            Ok(())
        }
    }
}

/// Puts those of each of the parts behind those found.
#[cycle(late)]
fn push_all_late<'t>(
    numbers: &Numbers,
    statics: &Statics,
    found: &mut Vec<&'t NumberedGoal>,
    parts: &'t [NumberedGoal],
) -> Result<(), NoMemory>
    ensures { OnOk result
        (JoinsAllLate numbers.now statics.now parts.now found.old.items found.new.items) }
{
    for part in parts {
        push_late(numbers, statics, found, part)?;
    }
    Ok(())
}

/// The parts of a precondition that are to be tested when all objects are chosen: where it could
/// begin so far, it may begin exactly where each of them may.
pub(crate) fn late_parts<'t>(
    alloc: Global,
    numbers: &Numbers,
    statics: &Statics,
    goal: &'t NumberedGoal,
) -> Result<Vec<&'t NumberedGoal>, NoMemory>
    ensures { IfOk result (λ parts. AreLate numbers.now statics.now goal.now parts.items) }
{
    let mut parts = Vec::new(alloc);
    push_late(numbers, statics, &mut parts, goal)?;
    Ok(parts)
}

// ---- the test

/// Whether the hard part of a precondition may hold at the objects in the slots.
#[cycle(begins)]
#[tactic(auto, using(crate::proofs::PossibleLemmas::goal_laws))]
fn goal_may(
    numbers: &Numbers,
    statics: &Statics,
    words: &mut Vec<u32>,
    slots: &[u32],
    goal: &NumberedGoal,
) -> Result<bool, NoMemory>
    ensures { IfOk result (λ may. may ≡ may_begin numbers.now statics.now slots.now goal.now) }
{
    match goal {
        NumberedGoal::Plain(condition) => {
            let may = condition_may(numbers, statics, words, true, slots, condition, true)?;
            Ok(may)
        }
        NumberedGoal::Both(parts) => {
            let may = goals_may(numbers, statics, words, slots, parts.items())?;
            Ok(may)
        }
        NumberedGoal::Each(ranges, body) => {
            let (ranges, body) = (ranges.items(), body.get());
            let may = goal_bodies_may(numbers, statics, words, slots, ranges, body)?;
            Ok(may)
        }
        NumberedGoal::Soft(_) => Ok(true),
    }
}

/// Whether the hard part of each of the parts may hold.
#[cycle(begins)]
fn goals_may(
    numbers: &Numbers,
    statics: &Statics,
    words: &mut Vec<u32>,
    slots: &[u32],
    parts: &[NumberedGoal],
) -> Result<bool, NoMemory>
    ensures { IfOk result (λ may. may
        ≡ list_all (λ part. may_begin numbers.now statics.now slots.now part) parts.now) }
{
    for part in parts {
        if !goal_may(numbers, statics, words, slots, part)? {
            return Ok(false);
        }
    }
    Ok(true)
}

/// Whether the hard part of the body may hold at each choice of one object of each range behind
/// those in the slots.
#[cycle(begins)]
fn goal_bodies_may(
    numbers: &Numbers,
    statics: &Statics,
    words: &mut Vec<u32>,
    slots: &[u32],
    ranges: &[u32],
    body: &NumberedGoal,
) -> Result<bool, NoMemory>
    ensures { IfOk result (λ may. may ≡ list_all
        (λ inner. may_begin numbers.now statics.now inner body.now)
        (bound numbers.now slots.now ranges.now)) }
{
    let count = choice_count(numbers, ranges)?;
    let mut inner = Vec::from_slice(*words.allocator(), slots)?;
    for choice in 0..count {
        place_inner(&mut inner, slots.len(), numbers, ranges, count, choice)?;
        if !goal_may(numbers, statics, words, inner.as_slice(), body)? {
            return Ok(false);
        }
    }
    Ok(true)
}

/// Whether all of the parts may begin at the objects in the slots.
pub(crate) fn all_begin(
    numbers: &Numbers,
    statics: &Statics,
    words: &mut Vec<u32>,
    slots: &[u32],
    parts: &[&NumberedGoal],
) -> Result<bool, NoMemory>
    ensures { IfOk result (λ may. may
        ≡ all_may_begin numbers.now statics.now slots.now parts.now) }
{
    for part in parts {
        if !goal_may(numbers, statics, words, slots, part)? {
            return Ok(false);
        }
    }
    Ok(true)
}
