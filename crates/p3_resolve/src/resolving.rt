//! The numbered task of a task, or its first offence.

ghost use Rattle.std.specs.Prelude.{◌≡◌, [], map, IfOk};
ghost use Rattle.p3_numbers.specs.Constraints.{constraint_of};
ghost use Rattle.p3_numbers.specs.Goals.{goal_of};
ghost use Rattle.p3_numbers.specs.Starts.{start_of, initial_values_of};
ghost use Rattle.p3_numbers.specs.Tasks.{numbered_action};
ghost use Rattle.p3_resolve.specs.Answers.{IsResolved};
ghost use Rattle.p3_resolve.specs.Order as order;
ghost use Rattle.p3_resolve.specs.Listed.{task_lists};
ghost use Rattle.p3_resolve.specs.NumbersOf.{numbers_of};
ghost use Rattle.p3_resolve.specs.Ranges.{HaveRanges, lists_once};
ghost use Rattle.p3_resolve.specs.Wholes.{domain_found, problem_found};
ghost use Rattle.p3_resolve.specs.TaskOf.{task_of};

use crate::first::in_order;
use crate::tables::Tables;
use crate::whole::{DomainTrees, ProblemTrees, domain_trees, problem_trees};
use p3_base::{Boxed, NoMemory, Refusal, Side};
use p3_numbers::{NumberedTask, Numbers};
use p3_task::Task;
use std::alloc::Global;

/// What a task comes to.
#[derive(Drop)]
pub enum Resolved {
    /// It is well-formed: the task with numbers in the place of names.
    Numbered(NumberedTask),
    /// It is not: the refusal of its first offence.
    Refused(Refusal),
}

/// The trees of a task with numbers, and what was found in them.
#[derive(Drop)]
struct Trees {
    domain: DomainTrees,
    problem: ProblemTrees,
}

/// The trees of a task with numbers, and what was found in them.
fn trees_of<'t>(alloc: Global, tables: &Boxed<Tables<'t>>) -> Result<Trees, NoMemory>
    ensures domain_found { IfOk result
        (λ trees. trees.domain.found ≡ domain_found tables.now.task.now) }
    ensures problem_found { IfOk result
        (λ trees. trees.problem.found ≡ problem_found tables.now.task.now) }
    ensures actions { IfOk result (λ trees. trees.domain.actions
        ≡ map (numbered_action (numbers_of tables.now)) tables.now.task.now.domain.actions) }
    ensures domain { IfOk result (λ trees. trees.domain.constraints
        ≡ constraint_of (numbers_of tables.now) tables.now.task.now.domain.constraints.body []) }
    ensures problem { IfOk result (λ trees. trees.problem.trees.constraints
        ≡ constraint_of (numbers_of tables.now) tables.now.task.now.problem.constraints.body []) }
    ensures goal { IfOk result (λ trees. trees.problem.trees.goal
        ≡ goal_of (numbers_of tables.now) tables.now.task.now.problem.goal.body []) }
    ensures facts { IfOk result (λ trees. trees.problem.start.facts
        ≡ start_of (numbers_of tables.now) tables.now.task.now) }
    ensures values { IfOk result (λ trees. trees.problem.start.values
        ≡ initial_values_of (numbers_of tables.now) tables.now.task.now) }
{
    let domain = domain_trees(alloc, tables.get())?;
    let problem = problem_trees(alloc, tables.get())?;
    Ok(Trees { domain, problem })
}

/// The task of these numbers and trees.
fn numbered_task(numbers: Numbers, trees: Trees) -> NumberedTask
    ensures { result ≡ task_of numbers trees }
{
    let Trees { domain, problem } = trees;
    let ProblemTrees { start, trees, .. } = problem;
    NumberedTask {
        numbers,
        actions: domain.actions,
        domain_constraints: domain.constraints.into_inner(),
        problem_constraints: trees.constraints.into_inner(),
        goal: trees.goal.into_inner(),
        start: start.facts,
        values: start.values,
    }
}

/// The task of these tables and trees.
fn numbered(alloc: Global, tables: Tables, trees: Trees) -> Result<NumberedTask, NoMemory>
    ensures { IfOk result (λ made. made ≡ task_of (numbers_of tables.entry) trees) }
{
    let numbers = tables.into_numbers(alloc)?;
    Ok(numbered_task(numbers, trees))
}

/// The tables of a task, in a box.
fn boxed_tables<'t>(alloc: Global, task: &'t Task) -> Result<Boxed<Tables<'t>>, NoMemory>
    ensures task { IfOk result (λ tables. tables.task.now ≡ task.now) }
    ensures types { IfOk result
        (λ tables. tables.lists.types ≡ lists_once (task_lists task.now)) }
    ensures ranges { IfOk result
        (λ tables. HaveRanges task.now tables.lists.types tables.lists.ranges) }
{
    let tables = Tables::of(alloc, task)?;
    let boxed = Boxed::new(alloc, tables)?;
    Ok(boxed)
}

/// The first offence that was found in the trees.
fn first_in(side: Side, trees: &Trees) -> Result<Option<Refusal>, NoMemory>
    ensures { IfOk result
        (λ first. first ≡ order.in_order side trees.now.domain.found trees.now.problem.found) }
{
    let first = in_order(side, &trees.domain.found, &trees.problem.found)?;
    Ok(first)
}

/// The task with numbers in the place of names, or the refusal of its first offence, where it is
/// not well-formed.
///
/// A name's number is its place among those of its sort, in the order of first declaration, that of
/// a preference in the order of the text, and the numbers of each range rise. The first offence is
/// a name that is declared twice or a value that is given twice, then a name that is not declared,
/// a wrong number of arguments, and an argument whose types do not fit; of each the domain's
/// before the problem's, and there the word of least offset.
pub fn resolve(alloc: Global, side: Side, task: &Task) -> Result<Resolved, NoMemory>
    ensures { IfOk result (IsResolved side task.now) }
{
    let tables = boxed_tables(alloc, task)?;
    let trees = trees_of(alloc, &tables)?;
    let first = first_in(side, &trees)?;
    match first {
        Some(refusal) => {
            drop(trees);
            Ok(Resolved::Refused(refusal))
        }
        None => {
            let made = numbered(alloc, tables.into_inner(), trees)?;
            Ok(Resolved::Numbered(made))
        }
    }
}
