//! The expanded sizes of numbered trees.

ghost use Rattle.std.specs.Prelude.{◌≡◌};
ghost use Rattle.p3_limits.specs.Cuts.{cut_choices, cut_total};
ghost use Rattle.p3_limits.specs.Sizes as size;

use crate::choices::{choice_count, cut_product, cut_sum};
use p3_base::Operands;
use p3_numbers::{
    NumberedCondition, NumberedConstraint, NumberedEffect, NumberedGoal, NumberedModal, Numbers,
};

/// The size of a tree above one part.
fn above(part: u64) -> u64
    ensures { result ≡ size.above part }
{
    cut_sum(1, part)
}

/// The size of a tree above two parts.
fn above_two(first: u64, second: u64) -> u64
    ensures { result ≡ size.above_two first second }
{
    cut_sum(above(first), second)
}

/// The size of a tree above one part for each choice of objects.
fn above_each(numbers: &Numbers, ranges: &[u32], body: u64) -> u64
    ensures { result ≡ size.above_each (cut_choices numbers.now ranges.now) body }
{
    above(cut_product(choice_count(numbers, ranges), body))
}

/// The size of a condition. It takes no memory.
#[cycle(condition)]
#[tactic(auto, using(crate::proofs::SizeLemmas::condition_sizes))]
fn condition_size(numbers: &Numbers, condition: &NumberedCondition) -> u64
    ensures { result ≡ size.condition_size numbers.now condition.now }
{
    match condition {
        NumberedCondition::Atom { .. } => 1,
        NumberedCondition::Equal(_, _) => 1,
        NumberedCondition::And(parts) => conditions_size(numbers, parts.items()),
        NumberedCondition::Or(parts) => conditions_size(numbers, parts.items()),
        NumberedCondition::Not(part) => above(condition_size(numbers, part.get())),
        NumberedCondition::Imply(first, second) => {
            let first = condition_size(numbers, first.get());
            above_two(first, condition_size(numbers, second.get()))
        }
        NumberedCondition::Exists(ranges, body) => {
            above_each(numbers, ranges.items(), condition_size(numbers, body.get()))
        }
        NumberedCondition::Forall(ranges, body) => {
            above_each(numbers, ranges.items(), condition_size(numbers, body.get()))
        }
    }
}

/// The size of a condition that is made of the parts.
#[cycle(condition)]
fn conditions_size(numbers: &Numbers, parts: &[NumberedCondition]) -> u64
    ensures { result ≡ cut_total (size.condition_size numbers.now) 1 parts.now }
{
    let mut total = 1;
    for part in parts {
        total = cut_sum(total, condition_size(numbers, part));
    }
    total
}

/// The size of an effect. It takes no memory.
#[cycle(effect)]
#[tactic(auto, using(crate::proofs::SizeLemmas::effect_sizes))]
pub(crate) fn effect_size(numbers: &Numbers, effect: &NumberedEffect) -> u64
    ensures { result ≡ size.effect_size numbers.now effect.now }
{
    match effect {
        NumberedEffect::Add { .. } => 1,
        NumberedEffect::Del { .. } => 1,
        NumberedEffect::All(parts) => effects_size(numbers, parts.items()),
        NumberedEffect::Each(ranges, body) => {
            above_each(numbers, ranges.items(), effect_size(numbers, body.get()))
        }
        NumberedEffect::If(condition, body) => {
            let condition = condition_size(numbers, condition);
            above_two(condition, effect_size(numbers, body.get()))
        }
        NumberedEffect::Cost(_) => 1,
    }
}

/// The size of an effect that is made of the parts.
#[cycle(effect)]
fn effects_size(numbers: &Numbers, parts: &[NumberedEffect]) -> u64
    ensures { result ≡ cut_total (size.effect_size numbers.now) 1 parts.now }
{
    let mut total = 1;
    for part in parts {
        total = cut_sum(total, effect_size(numbers, part));
    }
    total
}

/// The size of a precondition or goal. It takes no memory.
#[cycle(goal)]
#[tactic(auto, using(crate::proofs::SizeLemmas::goal_sizes))]
pub(crate) fn goal_size(numbers: &Numbers, goal: &NumberedGoal) -> u64
    ensures { result ≡ size.goal_size numbers.now goal.now }
{
    match goal {
        NumberedGoal::Plain(condition) => condition_size(numbers, condition),
        NumberedGoal::Both(parts) => goals_size(numbers, parts.items()),
        NumberedGoal::Each(ranges, body) => {
            above_each(numbers, ranges.items(), goal_size(numbers, body.get()))
        }
        NumberedGoal::Soft(preference) => above(condition_size(numbers, &preference.body)),
    }
}

/// The size of a goal that is made of the parts.
#[cycle(goal)]
fn goals_size(numbers: &Numbers, parts: &[NumberedGoal]) -> u64
    ensures { result ≡ cut_total (size.goal_size numbers.now) 1 parts.now }
{
    let mut total = 1;
    for part in parts {
        total = cut_sum(total, goal_size(numbers, part));
    }
    total
}

/// The size of an operator over two conditions.
fn pair_size(numbers: &Numbers, first: &NumberedCondition, second: &NumberedCondition) -> u64
    ensures { result ≡ size.above_two (size.condition_size numbers.now first.now)
        (size.condition_size numbers.now second.now) }
{
    let first = condition_size(numbers, first);
    above_two(first, condition_size(numbers, second))
}

/// The size of a modal operator.
#[tactic(auto, using(p3_base::proofs::OperatorLaws::formulas_unary, p3_base::proofs::OperatorLaws::formulas_binary))]
fn modal_size(numbers: &Numbers, operator: &NumberedModal) -> u64
    ensures { result ≡ size.modal_size numbers.now operator.now }
{
    match operator.operands() {
        Operands::One(_, condition) => above(condition_size(numbers, condition)),
        Operands::Two(_, first, second) => pair_size(numbers, first, second),
    }
}

/// The size of constraints. It takes no memory.
#[cycle(constraint)]
#[tactic(auto, using(crate::proofs::SizeLemmas::constraint_sizes))]
pub(crate) fn constraint_size(numbers: &Numbers, constraint: &NumberedConstraint) -> u64
    ensures { result ≡ size.constraint_size numbers.now constraint.now }
{
    match constraint {
        NumberedConstraint::Both(parts) => constraints_size(numbers, parts.items()),
        NumberedConstraint::Each(ranges, body) => {
            above_each(
                numbers,
                ranges.items(),
                constraint_size(numbers, body.get()),
            )
        }
        NumberedConstraint::Single(operator) => modal_size(numbers, operator),
        NumberedConstraint::Soft { body, .. } => above(constraint_size(numbers, body.get())),
    }
}

/// The size of constraints that are made of the parts.
#[cycle(constraint)]
fn constraints_size(numbers: &Numbers, parts: &[NumberedConstraint]) -> u64
    ensures { result ≡ cut_total (size.constraint_size numbers.now) 1 parts.now }
{
    let mut total = 1;
    for part in parts {
        total = cut_sum(total, constraint_size(numbers, part));
    }
    total
}
