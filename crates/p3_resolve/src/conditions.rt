//! Formulas with numbers.

ghost use Rattle.std.specs.Prelude.{◌≡◌, [], ◌∷◌, map, OnOk, IfOk};
ghost use Rattle.p3_numbers.specs.Conditions.{condition_of};
ghost use Rattle.p3_numbers.specs.Places.{numbered_term};
ghost use Rattle.p3_task.specs.Uses.{SideUse, formula_uses};
ghost use Rattle.p3_resolve.specs.NumbersOf.{numbers_of};
ghost use Rattle.p3_resolve.specs.Walk.{with_tree, uses_of_each};

use crate::atoms::{Placed, atom};
use crate::tables::Tables;
use crate::terms::argument;
use crate::walk::Walk;
use p3_base::{Boxed, List, NoMemory};
use p3_numbers::{NumberedArgument, NumberedCondition};
use p3_task::{Formula, Term};
use std::alloc::Global;

/// A side of an equality as an argument.
#[tactic(auto, using(crate::proofs::TermLemmas::side_laws))]
fn side<'t>(
    tables: &Tables<'t>,
    walk: &mut Walk<'t>,
    side: &Term,
) -> Result<NumberedArgument, NoMemory>
    ensures walk { OnOk result (walk.new ≡ with_tree tables.now.task.now
        (λ scope. SideUse side.now scope ∷ []) walk.old) }
    ensures made { IfOk result
        (λ made. made ≡ numbered_term (numbers_of tables.now) walk.old.words side.now) }
{
    let mut found = walk.found;
    let made = argument(tables, walk, &mut found, None, 0, side)?;
    walk.found = found;
    Ok(made)
}

/// A formula with numbers; what is found in it is noted.
#[cycle(conditions)]
#[tactic(auto, using(crate::proofs::FormLemmas::formula_laws, crate::proofs::FormLemmas::word_laws, crate::proofs::ConditionLemmas::condition_laws))]
pub(crate) fn numbered_formula<'t>(
    alloc: Global,
    tables: &Tables<'t>,
    walk: &mut Walk<'t>,
    formula: &'t Formula,
) -> Result<NumberedCondition, NoMemory>
    ensures walk { OnOk result
        (walk.new ≡ with_tree tables.now.task.now (formula_uses formula.now) walk.old) }
    ensures made { IfOk result
        (λ made. made ≡ condition_of (numbers_of tables.now) formula.now walk.old.words) }
{
    match formula {
        Formula::Atom { pred, args } => {
            let Placed { number, args } = atom(alloc, tables, walk, pred, args.items())?;
            Ok(NumberedCondition::Atom {
                predicate: number,
                args,
            })
        }
        Formula::Equal(left, right) => {
            let left = side(tables, walk, left.get())?;
            let right = side(tables, walk, right.get())?;
            Ok(NumberedCondition::Equal(left, right))
        }
        Formula::And(parts) => {
            let parts = numbered_formulas(alloc, tables, walk, parts.items())?;
            Ok(NumberedCondition::And(parts))
        }
        Formula::Or(parts) => {
            let parts = numbered_formulas(alloc, tables, walk, parts.items())?;
            Ok(NumberedCondition::Or(parts))
        }
        Formula::Not(part) => {
            let part = boxed_formula(alloc, tables, walk, part.get())?;
            Ok(NumberedCondition::Not(part))
        }
        Formula::Imply(first, second) => {
            let first = boxed_formula(alloc, tables, walk, first.get())?;
            let second = boxed_formula(alloc, tables, walk, second.get())?;
            Ok(NumberedCondition::Imply(first, second))
        }
        Formula::Exists(variables, body) => {
            let ranges = walk.enter(alloc, tables, variables.items())?;
            let body = boxed_formula(alloc, tables, walk, body.get())?;
            walk.leave(variables.items());
            Ok(NumberedCondition::Exists(ranges, body))
        }
        Formula::Forall(variables, body) => {
            let ranges = walk.enter(alloc, tables, variables.items())?;
            let body = boxed_formula(alloc, tables, walk, body.get())?;
            walk.leave(variables.items());
            Ok(NumberedCondition::Forall(ranges, body))
        }
    }
}

/// A formula with numbers, in a box.
#[cycle(conditions)]
pub(crate) fn boxed_formula<'t>(
    alloc: Global,
    tables: &Tables<'t>,
    walk: &mut Walk<'t>,
    formula: &'t Formula,
) -> Result<Boxed<NumberedCondition>, NoMemory>
    ensures walk { OnOk result
        (walk.new ≡ with_tree tables.now.task.now (formula_uses formula.now) walk.old) }
    ensures made { IfOk result
        (λ made. made ≡ condition_of (numbers_of tables.now) formula.now walk.old.words) }
{
    let made = numbered_formula(alloc, tables, walk, formula)?;
    let boxed = Boxed::new(alloc, made)?;
    Ok(boxed)
}

/// Each formula with numbers.
#[cycle(conditions)]
#[tactic(auto, using(crate::proofs::FormLemmas::more_laws))]
fn numbered_formulas<'t>(
    alloc: Global,
    tables: &Tables<'t>,
    walk: &mut Walk<'t>,
    parts: &'t [Formula],
) -> Result<List<NumberedCondition>, NoMemory>
    ensures walk { OnOk result (walk.new
        ≡ with_tree tables.now.task.now (uses_of_each formula_uses parts.now) walk.old) }
    ensures made { IfOk result
        (λ made. made ≡ map
        (λ part. condition_of (numbers_of tables.now) part walk.old.words) parts.now) }
{
    let mut made = List::with_capacity(alloc, parts.len())?;
    for part in parts {
        made.push(numbered_formula(alloc, tables, walk, part)?)?;
    }
    Ok(made)
}
