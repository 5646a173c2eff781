//! Literals that decide a condition at objects.

ghost use Rattle.std.specs.Prelude.{◌≡◌, map, IfOk};
ghost use Rattle.p3_numbers.specs.Slots.{bound};
ghost use Rattle.p3_reasons.specs.Outcomes.{decision_of, joined, outcome};
ghost use Rattle.p3_reasons.specs.Gathering.{outcome_of};

use crate::decision::decided;
use crate::gathered::{Finding, Gathered, fixed, neither, settles_alone, turned};
use crate::{Decision, Facts};
use p3_base::{List, NoMemory};
use p3_expansion::{are_same, choice_count, place_choice, spell};
use p3_numbers::{NumberedArgument, NumberedCondition, Numbers};
use std::alloc::Global;

/// What an atom comes to.
fn atom_finding<F: Facts>(
    alloc: Global,
    numbers: &Numbers,
    facts: &F,
    slots: &[u32],
    predicate: u32,
    args: &[NumberedArgument],
) -> Result<Finding, NoMemory>
    ensures { IfOk result (λ finding. outcome_of finding
        ≡ outcome numbers.now (F.has_atom facts.now) slots.now
        (NumberedCondition.Atom predicate args.now)) }
{
    let mut words = Vec::new(alloc);
    spell(&mut words, slots, predicate, args)?;
    let holds = facts.has(words.as_slice());
    Ok(Finding {
        holds,
        atoms: Gathered::One(List::from(words)),
    })
}

/// What a condition comes to at the objects in the slots.
#[cycle(findings)]
pub(crate) fn condition_finding<F: Facts>(
    alloc: Global,
    numbers: &Numbers,
    facts: &F,
    slots: &[u32],
    condition: &NumberedCondition,
) -> Result<Finding, NoMemory>
    ensures { IfOk result (λ finding. outcome_of finding
        ≡ outcome numbers.now (F.has_atom facts.now) slots.now condition.now) }
{
    match condition {
        NumberedCondition::Atom { predicate, args } => {
            atom_finding(alloc, numbers, facts, slots, *predicate, args.items())
        }
        NumberedCondition::Equal(left, right) => Ok(fixed(alloc, are_same(slots, *left, *right))),
        NumberedCondition::And(parts) => parts_finding(
            alloc,
            numbers,
            facts,
            slots,
            true,
            parts.items(),
        ),
        NumberedCondition::Or(parts) => parts_finding(
            alloc,
            numbers,
            facts,
            slots,
            false,
            parts.items(),
        ),
        NumberedCondition::Not(part) => {
            let part = condition_finding(alloc, numbers, facts, slots, part.get())?;
            Ok(turned(part))
        }
        NumberedCondition::Imply(first, second) => {
            let first = condition_finding(alloc, numbers, facts, slots, first.get())?;
            let first = turned(first);
            if first.holds {
                return Ok(first);
            }
            let second = condition_finding(alloc, numbers, facts, slots, second.get())?;
            if second.holds {
                return Ok(second);
            }
            neither(alloc, first, second)
        }
        NumberedCondition::Exists(ranges, body) => {
            let (ranges, body) = (ranges.items(), body.get());
            bodies_finding(alloc, numbers, facts, slots, false, ranges, body)
        }
        NumberedCondition::Forall(ranges, body) => {
            let (ranges, body) = (ranges.items(), body.get());
            bodies_finding(alloc, numbers, facts, slots, true, ranges, body)
        }
    }
}

/// What all of the conditions, or else some, come to: those behind one that decides are not looked
/// at.
#[cycle(findings)]
fn parts_finding<F: Facts>(
    alloc: Global,
    numbers: &Numbers,
    facts: &F,
    slots: &[u32],
    every: bool,
    parts: &[NumberedCondition],
) -> Result<Finding, NoMemory>
    ensures { IfOk result (λ finding. outcome_of finding ≡ joined every
        (map (outcome numbers.now (F.has_atom facts.now) slots.now) parts.now)) }
{
    let mut gathered = List::new(alloc);
    for part in parts {
        let finding = condition_finding(alloc, numbers, facts, slots, part)?;
        if settles_alone(every, finding.holds) {
            return Ok(finding);
        }
        gathered.push(finding.atoms)?;
    }
    Ok(Finding {
        holds: every,
        atoms: Gathered::All(gathered),
    })
}

/// What the body comes to at all choices of one object of each range, or else at some.
#[cycle(findings)]
fn bodies_finding<F: Facts>(
    alloc: Global,
    numbers: &Numbers,
    facts: &F,
    slots: &[u32],
    every: bool,
    ranges: &[u32],
    body: &NumberedCondition,
) -> Result<Finding, NoMemory>
    ensures { IfOk result (λ finding. outcome_of finding ≡ joined every
        (map (λ inner. outcome numbers.now (F.has_atom facts.now) inner body.now)
        (bound numbers.now slots.now ranges.now))) }
{
    let count = choice_count(numbers, ranges)?;
    let mut inner = Vec::from_slice(alloc, slots)?;
    let mut gathered = List::new(alloc);
    for choice in 0..count {
        place_choice(&mut inner, slots.len(), numbers, ranges, count, choice)?;
        let finding = condition_finding(alloc, numbers, facts, inner.as_slice(), body)?;
        if settles_alone(every, finding.holds) {
            return Ok(finding);
        }
        gathered.push(finding.atoms)?;
    }
    Ok(Finding {
        holds: every,
        atoms: Gathered::All(gathered),
    })
}

/// Tells whether a condition holds at the objects in the slots, and literals that decide it. It looks
/// at no part behind one that decides, and takes time for what it looks at.
///
/// # Errors
///
/// Want of memory.
pub fn decide_condition<F: Facts>(
    alloc: Global,
    numbers: &Numbers,
    facts: &F,
    slots: &[u32],
    condition: &NumberedCondition,
) -> Result<Decision, NoMemory>
    ensures { IfOk result (λ decision. decision ≡ decision_of (F.has_atom facts.now)
        (outcome numbers.now (F.has_atom facts.now) slots.now condition.now)) }
{
    let finding = condition_finding(alloc, numbers, facts, slots, condition)?;
    decided(alloc, facts, &finding)
}
