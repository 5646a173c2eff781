//! The domain half.

ghost use Rattle.std.specs.Prelude.{◌≡◌, IsSome};
ghost use Rattle.p3_task.specs.Grammar.Halves.{domain_place, header_place};
ghost use Rattle.p3_task.specs.Grammar.Words.{word_place};
ghost use Rattle.p3_outline.specs.Nodes.{expression_of, expressions_of};
ghost use Rattle.p3_syntax.specs.Reading.{Gives};
ghost use Rattle.p3_syntax.specs.Groups.{the_item};
ghost use Rattle.p3_syntax.specs.Sections.{the_sections};
ghost use Rattle.p3_syntax.specs.Domains.{predicate_header, function_header, each_predicate, kind_at, function_at, kinds_of, functions_of, kinds_among, constants_among, predicates_among, functions_among, actions_among, declarations_among, contents_among, domain_of};

use crate::tree::actions::action;
use crate::tree::groups::{Groups, TypedItem};
use crate::tree::lists::{objects_of, variables_of};
use crate::tree::parts::{HeadedParts, headed, parts};
use crate::tree::sections::{at_most_one, constraints, is_named, named_sections};
use crate::tree::words::{copied, name};
use p3_base::{List, NoMemory};
use p3_outline::{Parts, View};
use p3_task::{Action, Constraint, Domain, Header, Kind, Part, Ref, Typed};
use std::alloc::Global;

/// A type with the type above it.
fn kind(alloc: Global, typed: TypedItem<'_, '_>) -> Result<Kind, NoMemory>
    requires tree { IsSome (kind_at (the_item typed)) }
    ensures { Gives result (kind_at (the_item typed.entry)) }
{
    let name = name(alloc, typed.item)?;
    let parent = match typed.kind {
        Some(parent) => Some(crate::tree::words::name(alloc, parent)?),
        None => None,
    };
    Ok(Kind { name, parent })
}

/// The types of parts.
#[tactic(auto, using(crate::proofs::DomainLemmas::kinds_each, crate::proofs::GroupLemmas::one_more, crate::proofs::GroupLemmas::none_more))]
fn kinds_of(alloc: Global, parts: Parts<'_, '_>) -> Result<List<Kind>, NoMemory>
    requires tree { IsSome (kinds_of (expressions_of parts)) }
    ensures { Gives result (kinds_of (expressions_of parts.entry)) }
{
    let mut groups = Groups::of(parts);
    let mut found = List::new(alloc);
    while let Some(typed) = groups.next() {
        found.push(kind(alloc, typed)?)?;
    }
    Ok(found)
}

/// A predicate or a function with its parameters.
fn header(alloc: Global, view: View<'_, '_>) -> Result<Header, NoMemory>
    requires tree { IsSome (header_place word_place (expression_of view)) }
    ensures { Gives result (header_place word_place (expression_of view.entry)) }
{
    let list = headed(parts(view));
    let name = copied(alloc, list.word)?;
    let params = variables_of(alloc, list.behind)?;
    Ok(Header { name, params })
}

/// A predicate with its parameters.
fn predicate_header(alloc: Global, view: View<'_, '_>) -> Result<Header, NoMemory>
    requires tree { IsSome (predicate_header view) }
    ensures { Gives result (predicate_header view.entry) }
{
    header(alloc, view)
}

/// A function with its parameters.
fn function_header(alloc: Global, view: View<'_, '_>) -> Result<Header, NoMemory>
    requires tree { IsSome (function_header view) }
    ensures { Gives result (function_header view.entry) }
{
    header(alloc, view)
}

/// The predicates of parts.
fn predicates_of(alloc: Global, parts: Parts<'_, '_>) -> Result<List<Header>, NoMemory>
    requires tree { IsSome (each_predicate parts) }
    ensures { Gives result (each_predicate parts.entry) }
{
    let mut left = parts;
    let mut found = List::new(alloc);
    while let Some(view) = left.next() {
        found.push(predicate_header(alloc, view)?)?;
    }
    Ok(found)
}

/// A function with its type, which is `number`.
fn typed_function(alloc: Global, typed: TypedItem<'_, '_>) -> Result<Header, NoMemory>
    requires tree { IsSome (function_at (the_item typed)) }
    ensures { Gives result (function_at (the_item typed.entry)) }
{
    function_header(alloc, typed.item)
}

/// The functions of parts.
#[tactic(auto, using(crate::proofs::DomainLemmas::functions_each, crate::proofs::GroupLemmas::one_more, crate::proofs::GroupLemmas::none_more))]
fn functions_of(alloc: Global, parts: Parts<'_, '_>) -> Result<List<Header>, NoMemory>
    requires tree { IsSome (functions_of (expressions_of parts)) }
    ensures { Gives result (functions_of (expressions_of parts.entry)) }
{
    let mut groups = Groups::of(parts);
    let mut found = List::new(alloc);
    while let Some(typed) = groups.next() {
        found.push(typed_function(alloc, typed)?)?;
    }
    Ok(found)
}

fn kinds(alloc: Global, sections: &[HeadedParts<'_, '_>]) -> Result<List<Kind>, NoMemory>
    requires tree { IsSome (kinds_among (the_sections sections.now)) }
    ensures { Gives result (kinds_among (the_sections sections.now)) }
{
    match at_most_one(b":types", sections) {
        None => Ok(List::new(alloc)),
        Some(section) => kinds_of(alloc, section.behind),
    }
}

fn constants(alloc: Global, sections: &[HeadedParts<'_, '_>]) -> Result<List<Typed>, NoMemory>
    requires tree { IsSome (constants_among (the_sections sections.now)) }
    ensures { Gives result (constants_among (the_sections sections.now)) }
{
    match at_most_one(b":constants", sections) {
        None => Ok(List::new(alloc)),
        Some(section) => objects_of(alloc, section.behind),
    }
}

fn predicates(alloc: Global, sections: &[HeadedParts<'_, '_>]) -> Result<List<Header>, NoMemory>
    requires tree { IsSome (predicates_among (the_sections sections.now)) }
    ensures { Gives result (predicates_among (the_sections sections.now)) }
{
    match at_most_one(b":predicates", sections) {
        None => Ok(List::new(alloc)),
        Some(section) => predicates_of(alloc, section.behind),
    }
}

fn functions(alloc: Global, sections: &[HeadedParts<'_, '_>]) -> Result<List<Header>, NoMemory>
    requires tree { IsSome (functions_among (the_sections sections.now)) }
    ensures { Gives result (functions_among (the_sections sections.now)) }
{
    match at_most_one(b":functions", sections) {
        None => Ok(List::new(alloc)),
        Some(section) => functions_of(alloc, section.behind),
    }
}

/// The actions, in order.
#[tactic(auto, using(crate::proofs::Loops::one_more, crate::proofs::Loops::regrouped))]
fn actions(alloc: Global, sections: &[HeadedParts<'_, '_>]) -> Result<List<Action>, NoMemory>
    requires tree { IsSome (actions_among (the_sections sections.now)) }
    ensures { Gives result (actions_among (the_sections sections.now)) }
{
    let mut found = List::new(alloc);
    for section in sections {
        if !is_named(section.word.text, b":action") {
            continue;
        }
        found.push(action(alloc, section.behind)?)?;
    }
    Ok(found)
}

/// What a domain declares.
#[derive(Drop)]
pub struct Declarations {
    /// The types.
    pub kinds: List<Kind>,
    /// The constants.
    pub constants: List<Typed>,
    /// The predicates.
    pub predicates: List<Header>,
    /// The functions.
    pub functions: List<Header>,
}

fn declared(alloc: Global, sections: &[HeadedParts<'_, '_>]) -> Result<Declarations, NoMemory>
    requires tree { IsSome (declarations_among (the_sections sections.now)) }
    ensures { Gives result (declarations_among (the_sections sections.now)) }
{
    let kinds = kinds(alloc, sections)?;
    let constants = constants(alloc, sections)?;
    let predicates = predicates(alloc, sections)?;
    let functions = functions(alloc, sections)?;
    Ok(Declarations {
        kinds,
        constants,
        predicates,
        functions,
    })
}

/// What stands in the sections.
#[derive(Drop)]
pub struct DomainContents {
    /// What is declared.
    pub declarations: Declarations,
    /// The constraints.
    pub constraints: Part<Constraint>,
    /// The actions.
    pub actions: List<Action>,
}

fn contents(alloc: Global, sections: &[HeadedParts<'_, '_>]) -> Result<DomainContents, NoMemory>
    requires tree { IsSome (contents_among (the_sections sections.now)) }
    ensures { Gives result (contents_among (the_sections sections.now)) }
{
    let declarations = declared(alloc, sections)?;
    let actions = actions(alloc, sections)?;
    // The constraints come last, so that none has to be let go of: that is quicker to prove.
    let constraints = constraints(alloc, sections)?;
    Ok(DomainContents {
        declarations,
        constraints,
        actions,
    })
}

/// The domain of a name and its contents.
fn domain_of(name: Ref, contents: DomainContents) -> Domain
    ensures { result ≡ domain_of name contents }
{
    let DomainContents {
        declarations,
        constraints,
        actions,
    } = contents;
    let Declarations {
        kinds,
        constants,
        predicates,
        functions,
    } = declarations;
    Domain {
        name,
        kinds,
        constants,
        predicates,
        functions,
        constraints,
        actions,
    }
}

/// The domain half.
pub fn domain(alloc: Global, view: View<'_, '_>) -> Result<Domain, NoMemory>
    requires tree { IsSome (domain_place (expression_of view)) }
    ensures { Gives result (domain_place (expression_of view.entry)) }
{
    let half = named_sections(alloc, view)?;
    let contents = contents(alloc, half.sections.as_slice())?;
    Ok(domain_of(half.name, contents))
}
