//! Trajectory constraints with numbers.

ghost use Rattle.std.specs.Prelude.{◌≡◌, map, OnOk, IfOk};
ghost use Rattle.p3_numbers.specs.Constraints.{modal_of, constraint_of};
ghost use Rattle.p3_task.specs.Uses.{modal_uses, constraint_uses};
ghost use Rattle.p3_resolve.specs.NumbersOf.{numbers_of};
ghost use Rattle.p3_resolve.specs.Walk.{with_tree, uses_of_each};

use crate::conditions::{boxed_formula, numbered_formula};
use crate::goals::numbered_name;
use crate::tables::Tables;
use crate::walk::Walk;
use p3_base::{Boxed, List, NoMemory, Operands};
use p3_numbers::{NumberedConstraint, NumberedModal};
use p3_task::{Constraint, Modal};
use std::alloc::Global;

/// An operator with numbers; what is found in it is noted.
#[tactic(auto, using(crate::proofs::FormLemmas::modal_laws, crate::proofs::FormLemmas::word_laws, p3_base::proofs::OperatorLaws::over_unary, p3_base::proofs::OperatorLaws::over_binary))]
fn numbered_modal<'t>(
    alloc: Global,
    tables: &Tables<'t>,
    walk: &mut Walk<'t>,
    modal: &'t Modal,
) -> Result<NumberedModal, NoMemory>
    ensures walk { OnOk result
        (walk.new ≡ with_tree tables.now.task.now (modal_uses modal.now) walk.old) }
    ensures made { IfOk result
        (λ made. made ≡ modal_of (numbers_of tables.now) modal.now walk.old.words) }
{
    match modal.operands() {
        Operands::One(kind, formula) => {
            let condition = numbered_formula(alloc, tables, walk, formula)?;
            Ok(kind.over(condition))
        }
        Operands::Two(kind, first, second) => {
            let first = boxed_formula(alloc, tables, walk, first)?;
            let second = numbered_formula(alloc, tables, walk, second)?;
            Ok(kind.over(first.into_inner(), second))
        }
    }
}

/// A constraint with numbers; what is found in it is noted.
#[cycle(constraints)]
#[tactic(auto, using(crate::proofs::FormLemmas::constraint_laws, crate::proofs::FormLemmas::word_laws, crate::proofs::ConstraintLemmas::constraint_laws))]
pub(crate) fn numbered_constraint<'t>(
    alloc: Global,
    tables: &Tables<'t>,
    walk: &mut Walk<'t>,
    constraint: &'t Constraint,
) -> Result<NumberedConstraint, NoMemory>
    ensures walk { OnOk result
        (walk.new ≡ with_tree tables.now.task.now (constraint_uses constraint.now) walk.old) }
    ensures made { IfOk result
        (λ made. made ≡ constraint_of (numbers_of tables.now) constraint.now walk.old.words) }
{
    match constraint {
        Constraint::Both(parts) => {
            let parts = numbered_constraints(alloc, tables, walk, parts.items())?;
            Ok(NumberedConstraint::Both(parts))
        }
        Constraint::Each(variables, body) => {
            let ranges = walk.enter(alloc, tables, variables.items())?;
            let body = boxed_constraint(alloc, tables, walk, body.get())?;
            walk.leave(variables.items());
            Ok(NumberedConstraint::Each(ranges, body))
        }
        Constraint::Single(modal) => {
            let modal = numbered_modal(alloc, tables, walk, modal)?;
            Ok(NumberedConstraint::Single(modal))
        }
        Constraint::Soft { at, name, body } => {
            let name = numbered_name(tables, name)?;
            let body = boxed_constraint(alloc, tables, walk, body.get())?;
            Ok(NumberedConstraint::Soft {
                at: *at,
                name,
                body,
            })
        }
    }
}

/// A constraint with numbers, in a box.
#[cycle(constraints)]
pub(crate) fn boxed_constraint<'t>(
    alloc: Global,
    tables: &Tables<'t>,
    walk: &mut Walk<'t>,
    constraint: &'t Constraint,
) -> Result<Boxed<NumberedConstraint>, NoMemory>
    ensures walk { OnOk result
        (walk.new ≡ with_tree tables.now.task.now (constraint_uses constraint.now) walk.old) }
    ensures made { IfOk result
        (λ made. made ≡ constraint_of (numbers_of tables.now) constraint.now walk.old.words) }
{
    let made = numbered_constraint(alloc, tables, walk, constraint)?;
    let boxed = Boxed::new(alloc, made)?;
    Ok(boxed)
}

/// Each constraint with numbers.
#[cycle(constraints)]
#[tactic(auto, using(crate::proofs::FormLemmas::more_laws))]
fn numbered_constraints<'t>(
    alloc: Global,
    tables: &Tables<'t>,
    walk: &mut Walk<'t>,
    parts: &'t [Constraint],
) -> Result<List<NumberedConstraint>, NoMemory>
    ensures walk { OnOk result (walk.new
        ≡ with_tree tables.now.task.now (uses_of_each constraint_uses parts.now) walk.old) }
    ensures made { IfOk result
        (λ made. made ≡ map
        (λ part. constraint_of (numbers_of tables.now) part walk.old.words) parts.now) }
{
    let mut made = List::with_capacity(alloc, parts.len())?;
    for part in parts {
        made.push(numbered_constraint(alloc, tables, walk, part)?)?;
    }
    Ok(made)
}
