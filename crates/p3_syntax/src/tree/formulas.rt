//! Formulas.

ghost use Rattle.std.specs.Prelude.{◌≡◌, IsSome};
ghost use Rattle.p3_task.specs.Grammar.Words.{each_at};
ghost use Rattle.p3_task.specs.Grammar.Formulas.{formula_place, not_form, imply_form, exists_form, forall_form, equal_form};
ghost use Rattle.p3_outline.specs.Nodes.{expression_of, expressions_of};
ghost use Rattle.p3_syntax.specs.Reading.{Gives};
ghost use Rattle.p3_syntax.specs.Trees.{the_word, form_at, atom_by, formula_by};
ghost use Rattle.p3_syntax.specs.Formulas.{two_formulas};

use crate::tree::lists::{room_for, term, terms, variables};
use crate::tree::parts::{headed, only, pair, parts};
use crate::tree::words::{TextWord, copied};
use p3_base::{Boxed, List, NoMemory};
use p3_lexer::is;
use p3_outline::{Parts, View};
use p3_task::Formula;
use std::alloc::Global;

#[tactic(auto, using(crate::proofs::TreeLemmas::raws_listed))]
fn atom_form(alloc: Global, word: TextWord<'_>, behind: Parts<'_, '_>) -> Result<Formula, NoMemory>
    requires tree { IsSome (atom_by (the_word word) behind) }
    ensures { Gives result (atom_by (the_word word.entry) behind.entry) }
{
    let pred = copied(alloc, word)?;
    let args = terms(alloc, behind)?;
    Ok(Formula::Atom { pred, args })
}

#[tactic(auto, using(crate::proofs::TreeLemmas::raws_listed))]
fn equal_form(alloc: Global, behind: Parts<'_, '_>) -> Result<Formula, NoMemory>
    requires tree { IsSome (form_at equal_form behind) }
    ensures { Gives result (form_at equal_form behind.entry) }
{
    let (left, right) = pair(behind);
    let left = Boxed::new(alloc, term(alloc, left)?)?;
    let right = Boxed::new(alloc, term(alloc, right)?)?;
    Ok(Formula::Equal(left, right))
}

/// The formulas of parts.
#[cycle(formula)]
fn formulas(alloc: Global, parts: Parts<'_, '_>) -> Result<List<Formula>, NoMemory>
    requires tree { IsSome (each_at formula_place (expressions_of parts)) }
    ensures { Gives result (each_at formula_place (expressions_of parts.entry)) }
{
    let mut left = parts;
    let mut found = room_for(alloc, parts)?;
    while let Some(view) = left.next() {
        found.push(formula(alloc, view)?)?;
    }
    Ok(found)
}

#[cycle(formula)]
#[tactic(auto, using(crate::proofs::FormulaLemmas::not_listed))]
fn not_form(alloc: Global, behind: Parts<'_, '_>) -> Result<Formula, NoMemory>
    requires tree { IsSome (form_at not_form behind) }
    ensures { Gives result (form_at not_form behind.entry) }
{
    let part = formula(alloc, only(behind))?;
    Ok(Formula::Not(Boxed::new(alloc, part)?))
}

#[cycle(formula)]
#[tactic(auto, using(crate::proofs::FormulaLemmas::imply_listed))]
fn imply_form(alloc: Global, behind: Parts<'_, '_>) -> Result<Formula, NoMemory>
    requires tree { IsSome (form_at imply_form behind) }
    ensures { Gives result (form_at imply_form behind.entry) }
{
    let (first, second) = pair(behind);
    let first = Boxed::new(alloc, formula(alloc, first)?)?;
    let second = Boxed::new(alloc, formula(alloc, second)?)?;
    Ok(Formula::Imply(first, second))
}

#[cycle(formula)]
#[tactic(auto, using(crate::proofs::FormulaLemmas::exists_listed))]
fn exists_form(alloc: Global, behind: Parts<'_, '_>) -> Result<Formula, NoMemory>
    requires tree { IsSome (form_at exists_form behind) }
    ensures { Gives result (form_at exists_form behind.entry) }
{
    let (first, second) = pair(behind);
    let variables = variables(alloc, first)?;
    let body = formula(alloc, second)?;
    Ok(Formula::Exists(variables, Boxed::new(alloc, body)?))
}

#[cycle(formula)]
#[tactic(auto, using(crate::proofs::FormulaLemmas::forall_listed))]
fn forall_form(alloc: Global, behind: Parts<'_, '_>) -> Result<Formula, NoMemory>
    requires tree { IsSome (form_at forall_form behind) }
    ensures { Gives result (form_at forall_form behind.entry) }
{
    let (first, second) = pair(behind);
    let variables = variables(alloc, first)?;
    let body = formula(alloc, second)?;
    Ok(Formula::Forall(variables, Boxed::new(alloc, body)?))
}

/// The formula of a list by its first word.
#[cycle(formula)]
#[tactic(auto, using(crate::proofs::TreeLemmas::trees_listed))]
pub fn formula_by(
    alloc: Global,
    head: TextWord<'_>,
    behind: Parts<'_, '_>,
) -> Result<Formula, NoMemory>
    requires tree { IsSome (formula_by head behind) }
    ensures { Gives result (formula_by head.entry behind.entry) }
{
    let word = head.text;
    if is(word, b"and") {
        Ok(Formula::And(formulas(alloc, behind)?))
    } else if is(word, b"or") {
        Ok(Formula::Or(formulas(alloc, behind)?))
    } else if is(word, b"not") {
        not_form(alloc, behind)
    } else if is(word, b"imply") {
        imply_form(alloc, behind)
    } else if is(word, b"exists") {
        exists_form(alloc, behind)
    } else if is(word, b"forall") {
        forall_form(alloc, behind)
    } else if is(word, b"=") {
        equal_form(alloc, behind)
    } else {
        atom_form(alloc, head, behind)
    }
}

/// The formula that a view is.
#[cycle(formula)]
#[tactic(auto, using(crate::proofs::FormulaLemmas::formula_of_list))]
pub fn formula(alloc: Global, view: View<'_, '_>) -> Result<Formula, NoMemory>
    requires tree { IsSome (formula_place (expression_of view)) }
    ensures { Gives result (formula_place (expression_of view.entry)) }
{
    let list = headed(parts(view));
    formula_by(alloc, list.word, list.behind)
}

/// The two formulas of parts.
pub fn two_formulas(alloc: Global, parts: Parts<'_, '_>) -> Result<(Formula, Formula), NoMemory>
    requires tree { IsSome (two_formulas (expressions_of parts)) }
    ensures { Gives result (two_formulas (expressions_of parts.entry)) }
{
    let (first, second) = pair(parts);
    let first = formula(alloc, first)?;
    let second = formula(alloc, second)?;
    Ok((first, second))
}
