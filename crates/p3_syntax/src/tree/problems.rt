//! The problem half.

ghost use Rattle.std.specs.Prelude.{◌≡◌, IsSome};
ghost use Rattle.p3_task.specs.Grammar.Words.{each_at};
ghost use Rattle.p3_task.specs.Grammar.Halves.{true_entry, false_entry, not_form, value_form, init_place, problem_place};
ghost use Rattle.p3_outline.specs.Nodes.{expression_of, expressions_of};
ghost use Rattle.p3_syntax.specs.Reading.{Gives};
ghost use Rattle.p3_syntax.specs.Sections.{the_sections};
ghost use Rattle.p3_syntax.specs.Problems.{entry_in, value_in, domain_name_among, objects_among, init_among, goal_among, metric_among, start_among, conditions_among, aims_among, contents_among, problem_of};

use crate::tree::goals::goal_or_empty;
use crate::tree::lists::{object_terms, objects_of};
use crate::tree::metrics::metric;
use crate::tree::numerals::numeral;
use crate::tree::parts::{HeadedParts, headed, only, pair, parts};
use crate::tree::sections::{at_most_one, constraints, exactly_one, named_sections};
use crate::tree::words::{copied, name};
use p3_base::{List, NoMemory};
use p3_lexer::is;
use p3_outline::{Parts, View};
use p3_task::{Constraint, Init, Metric, Numeral, Part, PreGoal, Problem, Ref, Typed};
use std::alloc::Global;

/// An atom that is true.
fn true_entry(alloc: Global, parts: Parts<'_, '_>) -> Result<Init, NoMemory>
    requires tree { IsSome (entry_in true_entry parts) }
    ensures { Gives result (entry_in true_entry parts.entry) }
{
    let list = headed(parts);
    let pred = copied(alloc, list.word)?;
    let args = object_terms(alloc, list.behind)?;
    Ok(Init::True { pred, args })
}

/// An atom that is said to be false.
fn false_entry(alloc: Global, parts: Parts<'_, '_>) -> Result<Init, NoMemory>
    requires tree { IsSome (entry_in false_entry parts) }
    ensures { Gives result (entry_in false_entry parts.entry) }
{
    let list = headed(parts);
    let pred = copied(alloc, list.word)?;
    let args = object_terms(alloc, list.behind)?;
    Ok(Init::False { pred, args })
}

/// `(not (` name name* `))`.
fn not_form(alloc: Global, behind: Parts<'_, '_>) -> Result<Init, NoMemory>
    requires tree { IsSome (not_form (expressions_of behind)) }
    ensures { Gives result (not_form (expressions_of behind.entry)) }
{
    false_entry(alloc, parts(only(behind)))
}

/// The value of a function.
fn value_entry(alloc: Global, number: Numeral, parts: Parts<'_, '_>) -> Result<Init, NoMemory>
    requires tree { IsSome (value_in number parts) }
    ensures { Gives result (value_in number parts.entry) }
{
    let list = headed(parts);
    let function = copied(alloc, list.word)?;
    let args = object_terms(alloc, list.behind)?;
    Ok(Init::Value {
        function,
        args,
        number,
    })
}

/// `(= (` name name* `)` number `)`.
fn value_form(alloc: Global, behind: Parts<'_, '_>) -> Result<Init, NoMemory>
    requires tree { IsSome (value_form (expressions_of behind)) }
    ensures { Gives result (value_form (expressions_of behind.entry)) }
{
    let (first, second) = pair(behind);
    let number = numeral(second)?;
    value_entry(alloc, number, parts(first))
}

/// An entry of the initial state.
fn entry(alloc: Global, view: View<'_, '_>) -> Result<Init, NoMemory>
    requires tree { IsSome (init_place (expression_of view)) }
    ensures { Gives result (init_place (expression_of view.entry)) }
{
    let parts = parts(view);
    let list = headed(parts);
    if is(list.word.text, b"not") {
        not_form(alloc, list.behind)
    } else if is(list.word.text, b"=") {
        value_form(alloc, list.behind)
    } else {
        true_entry(alloc, parts)
    }
}

/// The entries of parts.
fn entries(alloc: Global, parts: Parts<'_, '_>) -> Result<List<Init>, NoMemory>
    requires tree { IsSome (each_at init_place (expressions_of parts)) }
    ensures { Gives result (each_at init_place (expressions_of parts.entry)) }
{
    let mut left = parts;
    let mut found = List::new(alloc);
    while let Some(view) = left.next() {
        found.push(entry(alloc, view)?)?;
    }
    Ok(found)
}

fn domain_name(alloc: Global, sections: &[HeadedParts<'_, '_>]) -> Result<Ref, NoMemory>
    requires tree { IsSome (domain_name_among (the_sections sections.now)) }
    ensures { Gives result (domain_name_among (the_sections sections.now)) }
{
    let section = exactly_one(b":domain", sections);
    name(alloc, only(section.behind))
}

fn objects(alloc: Global, sections: &[HeadedParts<'_, '_>]) -> Result<List<Typed>, NoMemory>
    requires tree { IsSome (objects_among (the_sections sections.now)) }
    ensures { Gives result (objects_among (the_sections sections.now)) }
{
    match at_most_one(b":objects", sections) {
        None => Ok(List::new(alloc)),
        Some(section) => objects_of(alloc, section.behind),
    }
}

fn init(alloc: Global, sections: &[HeadedParts<'_, '_>]) -> Result<List<Init>, NoMemory>
    requires tree { IsSome (init_among (the_sections sections.now)) }
    ensures { Gives result (init_among (the_sections sections.now)) }
{
    let section = exactly_one(b":init", sections);
    entries(alloc, section.behind)
}

fn goal(alloc: Global, sections: &[HeadedParts<'_, '_>]) -> Result<Part<PreGoal>, NoMemory>
    requires tree { IsSome (goal_among (the_sections sections.now)) }
    ensures { Gives result (goal_among (the_sections sections.now)) }
{
    let section = exactly_one(b":goal", sections);
    let body = goal_or_empty(alloc, only(section.behind))?;
    Ok(Part {
        at: section.word.at,
        body,
    })
}

fn the_metric(alloc: Global, sections: &[HeadedParts<'_, '_>]) -> Result<Option<Metric>, NoMemory>
    requires tree { IsSome (metric_among (the_sections sections.now)) }
    ensures { Gives result (metric_among (the_sections sections.now)) }
{
    match at_most_one(b":metric", sections) {
        None => Ok(None),
        Some(section) => Ok(Some(metric(alloc, section.behind)?)),
    }
}

/// Where plans begin.
#[derive(Drop)]
pub struct Start {
    /// The name of the domain.
    pub domain: Ref,
    /// The objects.
    pub objects: List<Typed>,
    /// The initial state.
    pub init: List<Init>,
}

fn start_in(alloc: Global, sections: &[HeadedParts<'_, '_>]) -> Result<Start, NoMemory>
    requires tree { IsSome (start_among (the_sections sections.now)) }
    ensures { Gives result (start_among (the_sections sections.now)) }
{
    let domain = domain_name(alloc, sections)?;
    let objects = objects(alloc, sections)?;
    let init = init(alloc, sections)?;
    Ok(Start {
        domain,
        objects,
        init,
    })
}

/// What plans have to keep and to reach.
#[derive(Drop)]
pub struct Conditions {
    /// The goal.
    pub goal: Part<PreGoal>,
    /// The constraints.
    pub constraints: Part<Constraint>,
}

fn conditions_in(alloc: Global, sections: &[HeadedParts<'_, '_>]) -> Result<Conditions, NoMemory>
    requires tree { IsSome (conditions_among (the_sections sections.now)) }
    ensures { Gives result (conditions_among (the_sections sections.now)) }
{
    let goal = goal(alloc, sections)?;
    let constraints = constraints(alloc, sections)?;
    Ok(Conditions { goal, constraints })
}

/// What plans are for.
#[derive(Drop)]
pub struct Aims {
    /// What they have to keep and to reach.
    pub conditions: Conditions,
    /// The metric, where one is given.
    pub metric: Option<Metric>,
}

fn aims_in(alloc: Global, sections: &[HeadedParts<'_, '_>]) -> Result<Aims, NoMemory>
    requires tree { IsSome (aims_among (the_sections sections.now)) }
    ensures { Gives result (aims_among (the_sections sections.now)) }
{
    let metric = the_metric(alloc, sections)?;
    // The conditions come last, so that none has to be let go of: that is quicker to prove.
    let conditions = conditions_in(alloc, sections)?;
    Ok(Aims { conditions, metric })
}

/// What stands in the sections.
#[derive(Drop)]
pub struct ProblemContents {
    /// Where plans begin.
    pub start: Start,
    /// What they are for.
    pub aims: Aims,
}

fn contents(alloc: Global, sections: &[HeadedParts<'_, '_>]) -> Result<ProblemContents, NoMemory>
    requires tree { IsSome (contents_among (the_sections sections.now)) }
    ensures { Gives result (contents_among (the_sections sections.now)) }
{
    let start = start_in(alloc, sections)?;
    let aims = aims_in(alloc, sections)?;
    Ok(ProblemContents { start, aims })
}

/// The problem of a name and its contents.
fn problem_of(name: Ref, contents: ProblemContents) -> Problem
    ensures { result ≡ problem_of name contents }
{
    let ProblemContents { start, aims } = contents;
    let Start {
        domain,
        objects,
        init,
    } = start;
    let Aims { conditions, metric } = aims;
    let Conditions { goal, constraints } = conditions;
    Problem {
        name,
        domain,
        objects,
        init,
        goal,
        constraints,
        metric,
    }
}

/// The problem half.
pub fn problem(alloc: Global, view: View<'_, '_>) -> Result<Problem, NoMemory>
    requires tree { IsSome (problem_place (expression_of view)) }
    ensures { Gives result (problem_place (expression_of view.entry)) }
{
    let half = named_sections(alloc, view)?;
    let contents = contents(alloc, half.sections.as_slice())?;
    Ok(problem_of(half.name, contents))
}
