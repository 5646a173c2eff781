//! Terms, types, and lists of typed names.

ghost use Rattle.std.specs.Prelude.{◌≡◌, [], length, IfOk, IsSome};
ghost use Rattle.p3_task.specs.Grammar.Words.{each_at, name_place, variable_place};
ghost use Rattle.p3_task.specs.Grammar.Lists.{term_place, object_place, type_place, one_type_place, variables_in, variables_place, objects_in, either_in};
ghost use Rattle.p3_outline.specs.Nodes.{expression_of, expressions_of};
ghost use Rattle.p3_syntax.specs.Reading.{Gives};
ghost use Rattle.p3_syntax.specs.Groups.{the_item, typed_at};

use crate::tree::groups::{Groups, TypedItem};
use crate::tree::parts::{headed, parts};
use crate::tree::words::{copied, name, word};
use p3_base::{List, NoMemory};
use p3_lexer::is_name;
use p3_outline::{Parts, View};
use p3_task::{Ref, Term, Typed};
use std::alloc::Global;

/// An object or a variable.
pub fn term(alloc: Global, view: View<'_, '_>) -> Result<Term, NoMemory>
    requires tree { IsSome (term_place (expression_of view)) }
    ensures { Gives result (term_place (expression_of view.entry)) }
{
    let word = word(view);
    if is_name(word.text) {
        Ok(Term::Const(copied(alloc, word)?))
    } else {
        Ok(Term::Var(copied(alloc, word)?))
    }
}

/// Counts parts.
fn count(parts: Parts<'_, '_>) -> usize
    ensures { result ≡ length (expressions_of parts.entry) }
{
    let mut left = parts;
    let mut count = 0;
    while let Some(_) = left.next() {
        count += 1;
    }
    count
}

/// Makes room for as many items as the parts, and puts none there yet.
pub fn room_for<T>(alloc: Global, parts: Parts<'_, '_>) -> Result<List<T>, NoMemory>
    ensures { IfOk result (λ list. list ≡ []) }
{
    room(alloc, count(parts))
}

/// No item yet, and room for so many.
fn room<T>(alloc: Global, count: usize) -> Result<List<T>, NoMemory>
    ensures { IfOk result (λ list. list ≡ []) }
{
    Ok(List::from(Vec::with_capacity(alloc, count)?))
}

/// Reads the terms of parts, of which most lists have none.
pub fn terms(alloc: Global, parts: Parts<'_, '_>) -> Result<List<Term>, NoMemory>
    requires tree { IsSome (each_at term_place (expressions_of parts)) }
    ensures { Gives result (each_at term_place (expressions_of parts.entry)) }
{
    let mut behind = parts;
    match behind.next() {
        None => Ok(List::new(alloc)),
        Some(_) => each_term(alloc, parts),
    }
}

/// Reads each of the terms of parts.
#[inline(never)]
fn each_term(alloc: Global, parts: Parts<'_, '_>) -> Result<List<Term>, NoMemory>
    requires tree { IsSome (each_at term_place (expressions_of parts)) }
    ensures { Gives result (each_at term_place (expressions_of parts.entry)) }
{
    let mut left = parts;
    let mut found = room(alloc, parts.node_count())?;
    while let Some(view) = left.next() {
        found.push(term(alloc, view)?)?;
    }
    Ok(found)
}

/// An object.
pub fn object(alloc: Global, view: View<'_, '_>) -> Result<Term, NoMemory>
    requires tree { IsSome (object_place (expression_of view)) }
    ensures { Gives result (object_place (expression_of view.entry)) }
{
    Ok(Term::Const(name(alloc, view)?))
}

/// The objects of parts.
pub fn object_terms(alloc: Global, parts: Parts<'_, '_>) -> Result<List<Term>, NoMemory>
    requires tree { IsSome (each_at object_place (expressions_of parts)) }
    ensures { Gives result (each_at object_place (expressions_of parts.entry)) }
{
    let mut left = parts;
    let mut found = room(alloc, parts.node_count())?;
    while let Some(view) = left.next() {
        found.push(object(alloc, view)?)?;
    }
    Ok(found)
}

fn names(alloc: Global, parts: Parts<'_, '_>) -> Result<List<Ref>, NoMemory>
    requires tree { IsSome (each_at name_place (expressions_of parts)) }
    ensures { Gives result (each_at name_place (expressions_of parts.entry)) }
{
    let mut left = parts;
    let mut found = List::new(alloc);
    while let Some(view) = left.next() {
        found.push(name(alloc, view)?)?;
    }
    Ok(found)
}

/// The names behind the word `either`.
fn either(alloc: Global, parts: Parts<'_, '_>) -> Result<List<Ref>, NoMemory>
    requires tree { IsSome (either_in (expressions_of parts)) }
    ensures { Gives result (either_in (expressions_of parts.entry)) }
{
    names(alloc, headed(parts).behind)
}

/// A type, which is its own list.
fn one_type(alloc: Global, view: View<'_, '_>) -> Result<List<Ref>, NoMemory>
    requires tree { IsSome (one_type_place (expression_of view)) }
    ensures { Gives result (one_type_place (expression_of view.entry)) }
{
    let mut types = List::new(alloc);
    types.push(name(alloc, view)?)?;
    Ok(types)
}

/// A type, or several.
pub fn types(alloc: Global, view: View<'_, '_>) -> Result<List<Ref>, NoMemory>
    requires tree { IsSome (type_place (expression_of view)) }
    ensures { Gives result (type_place (expression_of view.entry)) }
{
    match view.word() {
        Some(_) => one_type(alloc, view),
        None => either(alloc, parts(view)),
    }
}

/// A variable with its types.
fn typed_variable(alloc: Global, typed: TypedItem<'_, '_>) -> Result<Typed, NoMemory>
    requires tree { IsSome (typed_at variable_place type_place (the_item typed)) }
    ensures { Gives result
        (typed_at variable_place type_place (the_item typed.entry)) }
{
    let name = name(alloc, typed.item)?;
    let types = match typed.kind {
        Some(kind) => types(alloc, kind)?,
        None => List::new(alloc),
    };
    Ok(Typed { name, types })
}

/// The variables of parts.
#[tactic(auto, using(crate::proofs::ListLemmas::variables_each, crate::proofs::GroupLemmas::one_more, crate::proofs::GroupLemmas::none_more))]
pub fn variables_of(alloc: Global, parts: Parts<'_, '_>) -> Result<List<Typed>, NoMemory>
    requires tree { IsSome (variables_in (expressions_of parts)) }
    ensures { Gives result (variables_in (expressions_of parts.entry)) }
{
    let mut groups = Groups::of(parts);
    let mut found = List::new(alloc);
    while let Some(typed) = groups.next() {
        found.push(typed_variable(alloc, typed)?)?;
    }
    Ok(found)
}

/// A list of variables.
pub fn variables(alloc: Global, view: View<'_, '_>) -> Result<List<Typed>, NoMemory>
    requires tree { IsSome (variables_place (expression_of view)) }
    ensures { Gives result (variables_place (expression_of view.entry)) }
{
    variables_of(alloc, parts(view))
}

/// An object with its type.
fn typed_object(alloc: Global, typed: TypedItem<'_, '_>) -> Result<Typed, NoMemory>
    requires tree { IsSome (typed_at name_place one_type_place (the_item typed)) }
    ensures { Gives result
        (typed_at name_place one_type_place (the_item typed.entry)) }
{
    let name = name(alloc, typed.item)?;
    let types = match typed.kind {
        Some(kind) => one_type(alloc, kind)?,
        None => List::new(alloc),
    };
    Ok(Typed { name, types })
}

/// The objects of parts.
#[tactic(auto, using(crate::proofs::ListLemmas::objects_each, crate::proofs::GroupLemmas::one_more, crate::proofs::GroupLemmas::none_more))]
pub fn objects_of(alloc: Global, parts: Parts<'_, '_>) -> Result<List<Typed>, NoMemory>
    requires tree { IsSome (objects_in (expressions_of parts)) }
    ensures { Gives result (objects_in (expressions_of parts.entry)) }
{
    let mut groups = Groups::of(parts);
    let mut found = List::new(alloc);
    while let Some(typed) = groups.next() {
        found.push(typed_object(alloc, typed)?)?;
    }
    Ok(found)
}
