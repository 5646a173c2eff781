//! How many instances of preferences numbered trees have, and which one stands at a place. No
//! instance is listed: a tree is counted, and a place is found by division.

ghost use Rattle.std.specs.Prelude.{◌≡◌, flat_map, slice_get};
ghost use Rattle.p3_limits.specs.Cuts.{cut_total};
ghost use Rattle.p3_limits.specs.Preferences as instance;

use crate::choices::{choice_count, cut_product, cut_sum};
use p3_numbers::{NumberedConstraint, NumberedGoal, Numbers};

/// The place in what stands behind so many items, if it is not one of them.
pub(crate) fn place_behind(count: u64, place: u32) -> Option<u32>
    ensures { result ≡ instance.place_behind count place }
{
    let place = place as u64;
    if place < count {
        None
    } else {
        Some((place - count) as u32)
    }
}

/// The place in one of the choices, which have so many items each.
fn place_within(choices: u64, count: u64, place: u32) -> Option<u32>
    ensures { result ≡ instance.place_within choices count place }
{
    if count == 0 {
        return None;
    }
    let place = place as u64;
    if place / count < choices {
        Some((place % count) as u32)
    } else {
        None
    }
}

/// How many instances of preferences a goal has, cut. It takes no memory.
#[cycle(goal_count)]
#[tactic(auto, using(crate::proofs::PreferenceLemmas::goal_counts))]
pub(crate) fn goal_count(numbers: &Numbers, goal: &NumberedGoal) -> u64
    ensures { result ≡ instance.goal_count numbers.now goal.now }
{
    match goal {
        NumberedGoal::Plain(_) => 0,
        NumberedGoal::Both(parts) => goals_count(numbers, parts.items()),
        NumberedGoal::Each(ranges, body) => {
            let choices = choice_count(numbers, ranges.items());
            cut_product(choices, goal_count(numbers, body.get()))
        }
        NumberedGoal::Soft(_) => 1,
    }
}

/// How many the parts have, cut.
#[cycle(goal_count)]
fn goals_count(numbers: &Numbers, parts: &[NumberedGoal]) -> u64
    ensures { result ≡ cut_total (instance.goal_count numbers.now) 0 parts.now }
{
    let mut total = 0;
    for part in parts {
        total = cut_sum(total, goal_count(numbers, part));
    }
    total
}

/// How many instances of preferences constraints have, cut. It takes no memory.
#[cycle(constraint_count)]
#[tactic(auto, using(crate::proofs::PreferenceLemmas::constraint_counts))]
pub(crate) fn constraint_count(numbers: &Numbers, constraint: &NumberedConstraint) -> u64
    ensures { result ≡ instance.constraint_count numbers.now constraint.now }
{
    match constraint {
        NumberedConstraint::Both(parts) => constraints_count(numbers, parts.items()),
        NumberedConstraint::Each(ranges, body) => {
            let choices = choice_count(numbers, ranges.items());
            cut_product(choices, constraint_count(numbers, body.get()))
        }
        NumberedConstraint::Single(_) => 0,
        NumberedConstraint::Soft { .. } => 1,
    }
}

/// How many the parts have, cut.
#[cycle(constraint_count)]
fn constraints_count(numbers: &Numbers, parts: &[NumberedConstraint]) -> u64
    ensures { result ≡ cut_total (instance.constraint_count numbers.now) 0 parts.now }
{
    let mut total = 0;
    for part in parts {
        total = cut_sum(total, constraint_count(numbers, part));
    }
    total
}

/// The offset of the word `preference` of the instance of a goal at a place.
#[cycle(goal_offset)]
#[tactic(auto, using(crate::proofs::PreferenceLemmas::goal_places))]
pub(crate) fn goal_offset(numbers: &Numbers, goal: &NumberedGoal, place: u32) -> Option<u32>
    ensures { result ≡ slice_get (instance.goal_offsets numbers.now goal.now) place }
{
    match goal {
        NumberedGoal::Plain(_) => None,
        NumberedGoal::Both(parts) => goals_offset(numbers, parts.items(), place),
        NumberedGoal::Each(ranges, body) => {
            let choices = choice_count(numbers, ranges.items());
            let count = goal_count(numbers, body.get());
            match place_within(choices, count, place) {
                Some(inner) => goal_offset(numbers, body.get(), inner),
                None => None,
            }
        }
        NumberedGoal::Soft(preference) => {
            if place == 0 {
                Some(preference.at)
            } else {
                None
            }
        }
    }
}

/// The offset at a place in the parts.
#[cycle(goal_offset)]
fn goals_offset(numbers: &Numbers, parts: &[NumberedGoal], place: u32) -> Option<u32>
    ensures { result ≡ slice_get (flat_map (instance.goal_offsets numbers.now) parts.now) place }
{
    let mut left = place;
    for part in parts {
        match place_behind(goal_count(numbers, part), left) {
            Some(behind) => left = behind,
            None => return goal_offset(numbers, part, left),
        }
    }
    None
}

/// The offset of the word `preference` of the instance of constraints at a place.
#[cycle(constraint_offset)]
#[tactic(auto, using(crate::proofs::PreferenceLemmas::constraint_places))]
pub(crate) fn constraint_offset(
    numbers: &Numbers,
    constraint: &NumberedConstraint,
    place: u32,
) -> Option<u32>
    ensures { result ≡ slice_get (instance.constraint_offsets numbers.now constraint.now) place }
{
    match constraint {
        NumberedConstraint::Both(parts) => constraints_offset(numbers, parts.items(), place),
        NumberedConstraint::Each(ranges, body) => {
            let choices = choice_count(numbers, ranges.items());
            let count = constraint_count(numbers, body.get());
            match place_within(choices, count, place) {
                Some(inner) => constraint_offset(numbers, body.get(), inner),
                None => None,
            }
        }
        NumberedConstraint::Single(_) => None,
        NumberedConstraint::Soft { at, .. } => { if place == 0 { Some(*at) } else { None } }
    }
}

/// The offset at a place in the parts.
#[cycle(constraint_offset)]
fn constraints_offset(numbers: &Numbers, parts: &[NumberedConstraint], place: u32) -> Option<u32>
    ensures { result ≡
        slice_get (flat_map (instance.constraint_offsets numbers.now) parts.now) place }
{
    let mut left = place;
    for part in parts {
        match place_behind(constraint_count(numbers, part), left) {
            Some(behind) => left = behind,
            None => return constraint_offset(numbers, part, left),
        }
    }
    None
}
