//! Trajectory constraints at objects as ground operators and instances of preferences.

ghost use Rattle.std.specs.Prelude.{[], ◌∷◌, flat_map, OnOk, IfOk};
ghost use Rattle.p3_numbers.specs.Slots.{bound};
ghost use Rattle.p3_expansion.specs.Operators.{
  MakesOperator,
  OperatorsStand,
  PushesOperators,
  operator_atoms,
  operators_of,
};
ghost use Rattle.p3_expansion.specs.Walks.{Pushes};

use crate::choices::{choice_count, place_choice};
use crate::condition::condition_form;
use crate::{Statics, Work};
use p3_base::{List, NoMemory, Operands};
use p3_formula::GroundModal;
use p3_numbers::{NumberedConstraint, NumberedModal, Numbers};

/// The ground operator of an operator at the objects in the slots.
fn ground_operator(
    numbers: &Numbers,
    statics: &Statics,
    work: &mut Work,
    slots: &[u32],
    modal: &NumberedModal,
) -> Result<GroundModal, NoMemory>
    ensures { IfOk result (MakesOperator numbers.now statics.now
        (record { modal = modal.now; slots = slots.now }) work.old work.new) }
{
    match modal.operands() {
        Operands::One(kind, body) => {
            let form = condition_form(numbers, statics, work, slots, body)?;
            Ok(kind.over(form))
        }
        Operands::Two(kind, first, second) => {
            let first = condition_form(numbers, statics, work, slots, first)?;
            let second = condition_form(numbers, statics, work, slots, second)?;
            Ok(kind.over(first, second))
        }
    }
}

/// Puts the operator at the objects in the slots behind those made.
fn push_operator(
    numbers: &Numbers,
    statics: &Statics,
    work: &mut Work,
    slots: &[u32],
    modal: &NumberedModal,
    made: &mut List<GroundModal>,
) -> Result<(), NoMemory>
    ensures { OnOk result (PushesOperators numbers.now statics.now
        (record { modal = modal.now; slots = slots.now } ∷ []) work.old work.new
        made.old made.new) }
{
    let operator = ground_operator(numbers, statics, work, slots, modal)?;
    made.push(operator)?;
    Ok(())
}

/// Puts the operators of a constraint at the objects in the slots behind those made, in order: all
/// of them, or else those outside preferences.
#[cycle(operators)]
pub(crate) fn push_operators(
    numbers: &Numbers,
    statics: &Statics,
    work: &mut Work,
    slots: &[u32],
    all: bool,
    constraint: &NumberedConstraint,
    made: &mut List<GroundModal>,
) -> Result<(), NoMemory>
    ensures { OnOk result (PushesOperators numbers.now statics.now
        (operators_of numbers.now all slots.now constraint.now) work.old work.new
        made.old made.new) }
{
    match constraint {
        NumberedConstraint::Both(parts) => {
            push_parts(numbers, statics, work, slots, all, parts.items(), made)?;
            Ok(())
        }
        NumberedConstraint::Each(ranges, body) => {
            let (ranges, body) = (ranges.items(), body.get());
            push_bodies(numbers, statics, work, slots, all, ranges, body, made)?;
            Ok(())
        }
        NumberedConstraint::Single(modal) => {
            push_operator(numbers, statics, work, slots, modal, made)?;
            Ok(())
        }
        NumberedConstraint::Soft { body, .. } => {
            if !all {
                return Ok(());
            }
            push_operators(numbers, statics, work, slots, all, body.get(), made)?;
            Ok(())
        }
    }
}

/// Puts the operators of the constraints behind those made.
#[cycle(operators)]
fn push_parts(
    numbers: &Numbers,
    statics: &Statics,
    work: &mut Work,
    slots: &[u32],
    all: bool,
    parts: &[NumberedConstraint],
    made: &mut List<GroundModal>,
) -> Result<(), NoMemory>
    ensures { OnOk result (Pushes (OperatorsStand numbers.now statics.now)
        (flat_map (λ part. flat_map (operator_atoms numbers.now)
        (operators_of numbers.now all slots.now part)) parts.now) work.old work.new
        (flat_map (operators_of numbers.now all slots.now) parts.now) made.old made.new) }
{
    for part in parts {
        push_operators(numbers, statics, work, slots, all, part, made)?;
    }
    Ok(())
}

/// Puts the operators of the body at each choice of objects behind those made.
#[cycle(operators)]
fn push_bodies(
    numbers: &Numbers,
    statics: &Statics,
    work: &mut Work,
    slots: &[u32],
    all: bool,
    ranges: &[u32],
    body: &NumberedConstraint,
    made: &mut List<GroundModal>,
) -> Result<(), NoMemory>
    ensures { OnOk result (Pushes (OperatorsStand numbers.now statics.now)
        (flat_map (λ inner. flat_map (operator_atoms numbers.now)
        (operators_of numbers.now all inner body.now)) (bound numbers.now slots.now ranges.now))
        work.old work.new
        (flat_map (λ inner. operators_of numbers.now all inner body.now)
        (bound numbers.now slots.now ranges.now)) made.old made.new) }
{
    let count = choice_count(numbers, ranges)?;
    let mut inner = Vec::from_slice(work.alloc, slots)?;
    for choice in 0..count {
        place_choice(&mut inner, slots.len(), numbers, ranges, count, choice)?;
        push_operators(numbers, statics, work, inner.as_slice(), all, body, made)?;
    }
    Ok(())
}
