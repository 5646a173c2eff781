//! Literals that decide the hard part of a precondition or a goal at objects.

ghost use Rattle.std.specs.Prelude.{◌≡◌, true, map, IfOk};
ghost use Rattle.p3_numbers.specs.Slots.{bound};
ghost use Rattle.p3_reasons.specs.Outcomes.{decision_of, hard_outcome, joined};
ghost use Rattle.p3_reasons.specs.Gathering.{outcome_of};

use crate::condition::condition_finding;
use crate::decision::decided;
use crate::gathered::{Finding, Gathered, fixed};
use crate::{Decision, Facts};
use p3_base::{List, NoMemory};
use p3_expansion::{choice_count, place_choice};
use p3_numbers::{NumberedGoal, Numbers};
use std::alloc::Global;

/// What the hard part of a goal comes to at the objects in the slots.
#[cycle(hard)]
fn hard_finding<F: Facts>(
    alloc: Global,
    numbers: &Numbers,
    facts: &F,
    slots: &[u32],
    goal: &NumberedGoal,
) -> Result<Finding, NoMemory>
    ensures { IfOk result (λ finding. outcome_of finding
        ≡ hard_outcome numbers.now (F.has_atom facts.now) slots.now goal.now) }
{
    match goal {
        NumberedGoal::Plain(condition) => condition_finding(
            alloc, numbers, facts, slots, condition,
        ),
        NumberedGoal::Both(parts) => hard_parts_finding(
            alloc,
            numbers,
            facts,
            slots,
            parts.items(),
        ),
        NumberedGoal::Each(ranges, body) => {
            let (ranges, body) = (ranges.items(), body.get());
            hard_bodies_finding(alloc, numbers, facts, slots, ranges, body)
        }
        NumberedGoal::Soft(_) => Ok(fixed(alloc, true)),
    }
}

/// What the hard parts of all goals come to: those behind a false one are not looked at.
#[cycle(hard)]
fn hard_parts_finding<F: Facts>(
    alloc: Global,
    numbers: &Numbers,
    facts: &F,
    slots: &[u32],
    parts: &[NumberedGoal],
) -> Result<Finding, NoMemory>
    ensures { IfOk result (λ finding. outcome_of finding ≡ joined true
        (map (hard_outcome numbers.now (F.has_atom facts.now) slots.now) parts.now)) }
{
    let mut gathered = List::new(alloc);
    for part in parts {
        let finding = hard_finding(alloc, numbers, facts, slots, part)?;
        if !finding.holds {
            return Ok(finding);
        }
        gathered.push(finding.atoms)?;
    }
    Ok(Finding {
        holds: true,
        atoms: Gathered::All(gathered),
    })
}

/// What the hard part of the body comes to at all choices of one object of each range.
#[cycle(hard)]
fn hard_bodies_finding<F: Facts>(
    alloc: Global,
    numbers: &Numbers,
    facts: &F,
    slots: &[u32],
    ranges: &[u32],
    body: &NumberedGoal,
) -> Result<Finding, NoMemory>
    ensures { IfOk result (λ finding. outcome_of finding ≡ joined true
        (map (λ inner. hard_outcome numbers.now (F.has_atom facts.now) inner body.now)
        (bound numbers.now slots.now ranges.now))) }
{
    let count = choice_count(numbers, ranges)?;
    let mut inner = Vec::from_slice(alloc, slots)?;
    let mut gathered = List::new(alloc);
    for choice in 0..count {
        place_choice(&mut inner, slots.len(), numbers, ranges, count, choice)?;
        let finding = hard_finding(alloc, numbers, facts, inner.as_slice(), body)?;
        if !finding.holds {
            return Ok(finding);
        }
        gathered.push(finding.atoms)?;
    }
    Ok(Finding {
        holds: true,
        atoms: Gathered::All(gathered),
    })
}

/// Tells whether the hard part of a precondition or a goal holds at the objects in the slots, and
/// literals that decide it.
///
/// # Errors
///
/// Want of memory.
pub fn decide_hard_part<F: Facts>(
    alloc: Global,
    numbers: &Numbers,
    facts: &F,
    slots: &[u32],
    goal: &NumberedGoal,
) -> Result<Decision, NoMemory>
    ensures { IfOk result (λ decision. decision ≡ decision_of (F.has_atom facts.now)
        (hard_outcome numbers.now (F.has_atom facts.now) slots.now goal.now)) }
{
    let finding = hard_finding(alloc, numbers, facts, slots, goal)?;
    decided(alloc, facts, &finding)
}
