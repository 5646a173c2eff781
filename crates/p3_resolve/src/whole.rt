//! The trees of a whole domain and problem with numbers, and what is found in them.

ghost use Rattle.std.specs.Prelude.{◌≡◌, [], ◌++◌, map, fold, flat_map, None, OnOk, IfOk};
ghost use Rattle.p3_numbers.specs.Constraints.{constraint_of};
ghost use Rattle.p3_numbers.specs.Goals.{goal_of};
ghost use Rattle.p3_numbers.specs.Starts.{initial_values_of, start_of};
ghost use Rattle.p3_numbers.specs.Tasks.{numbered_action};
ghost use Rattle.p3_task.specs.Offences.{repeated, header_words, action_words};
ghost use Rattle.p3_task.specs.Offences.{total_cost_with_parameters};
ghost use Rattle.p3_task.specs.Uses.{Objects, constraint_uses, goal_uses, header_uses};
ghost use Rattle.p3_resolve.specs.Spots.{step, use_step};
ghost use Rattle.p3_resolve.specs.NumbersOf.{numbers_of};
ghost use Rattle.p3_resolve.specs.Walk.{with_tree, uses_of_metric};
ghost use Rattle.p3_resolve.specs.Wholes.{domain_start, problem_start};
ghost use Rattle.p3_resolve.specs.Wholes as specs;

use crate::actions::numbered_actions;
use crate::constraints::boxed_constraint;
use crate::given::values_repeated;
use crate::goals::boxed_goal;
use crate::metric::metric_noted;
use crate::notes::{objects_noted, variables_noted, words_repeated};
use crate::spot::{FirstOffences, Spot, unless};
use crate::starts::{InitialState, initial_state};
use crate::tables::Tables;
use crate::walk::Walk;
use p3_base::{Boxed, List, NoMemory};
use p3_numbers::{NumberedAction, NumberedConstraint, NumberedGoal};
use p3_task::{Domain, Header, Problem};
use std::alloc::Global;

/// What is found in headers.
#[tactic(auto, using(crate::proofs::WalkLemmas::walk_laws))]
fn headers_walked(
    alloc: Global,
    found: FirstOffences,
    tables: &Tables,
    headers: &[Header],
) -> Result<FirstOffences, NoMemory>
    ensures { IfOk result
        (λ after. after ≡ fold (use_step tables.now.task.now) found
        (flat_map header_uses headers.now)) }
{
    let mut after = found;
    for header in headers {
        after = variables_noted(alloc, after, tables, header.params.items())?;
    }
    Ok(after)
}

/// The first name of a domain that is declared twice, but for variables.
#[tactic(auto, using(crate::proofs::WholeLemmas::part_laws))]
fn declared_twice(alloc: Global, domain: &Domain) -> Result<Option<Spot>, NoMemory>
    ensures { IfOk result
        (λ least. least ≡ fold step None
        (repeated (header_words domain.now.predicates)
        ++ repeated (header_words domain.now.functions)
        ++ repeated (action_words domain.now.actions))) }
{
    let least = words_repeated(alloc, None, domain.predicates.items())?;
    let least = words_repeated(alloc, least, domain.functions.items())?;
    let least = words_repeated(alloc, least, domain.actions.items())?;
    Ok(least)
}

/// The name of a header, where it is the total cost's and has parameters.
fn total_cost_noted(found: Option<Spot>, header: &Header) -> Option<Spot>
    ensures { result ≡ fold step found (total_cost_with_parameters header.now) }
{
    let is_total_cost = header.name.name.bytes() == b"total-cost".as_slice();
    let has_parameters = !header.params.is_empty();
    unless(found, !(is_total_cost && has_parameters), &header.name)
}

/// The first function that is the total cost and has parameters.
#[tactic(auto, using(crate::proofs::WalkLemmas::walk_laws))]
fn total_costs_noted(functions: &[Header]) -> Option<Spot>
    ensures { result ≡ fold step None (flat_map total_cost_with_parameters functions.now) }
{
    let mut least = None;
    for header in functions {
        least = total_cost_noted(least, header);
    }
    least
}

/// What is found in a domain beside what its texts use.
fn domain_begun(alloc: Global, domain: &Domain) -> Result<FirstOffences, NoMemory>
    ensures { IfOk result (λ found. found ≡ domain_start domain.now) }
{
    let duplicate = declared_twice(alloc, domain)?;
    let miscount = total_costs_noted(domain.functions.items());
    Ok(FirstOffences {
        duplicate,
        unknown: None,
        miscount,
        clash: None,
    })
}

/// What is found in what a domain declares outside its trees.
fn domain_declared(
    alloc: Global,
    found: FirstOffences,
    tables: &Tables,
    domain: &Domain,
) -> Result<FirstOffences, NoMemory>
    ensures { IfOk result (λ after. after ≡ fold (use_step tables.now.task.now)
        (fold (use_step tables.now.task.now)
        (use_step tables.now.task.now found (Objects domain.now.constants))
        (flat_map header_uses domain.now.predicates))
        (flat_map header_uses domain.now.functions)) }
{
    let found = objects_noted(found, tables, domain.constants.items());
    let found = headers_walked(alloc, found, tables, domain.predicates.items())?;
    let found = headers_walked(alloc, found, tables, domain.functions.items())?;
    Ok(found)
}

/// The trees of a domain with numbers, and what is found in it.
#[derive(Drop)]
pub(crate) struct DomainTrees {
    pub(crate) actions: List<NumberedAction>,
    pub(crate) constraints: Boxed<NumberedConstraint>,
    pub(crate) found: FirstOffences,
}

/// The trees of a domain with numbers, and what is found in it.
#[tactic(auto, using(crate::proofs::WholeLemmas::domain_laws))]
pub(crate) fn domain_trees<'t>(alloc: Global, tables: &Tables<'t>) -> Result<DomainTrees, NoMemory>
    ensures found { IfOk result
        (λ trees. trees.found ≡ specs.domain_found tables.now.task.now) }
    ensures actions { IfOk result (λ trees. trees.actions
        ≡ map (numbered_action (numbers_of tables.now)) tables.now.task.now.domain.actions) }
    ensures constraints { IfOk result (λ trees. trees.constraints
        ≡ constraint_of (numbers_of tables.now) tables.now.task.now.domain.constraints.body []) }
{
    let domain = &tables.task.domain;
    let found = domain_begun(alloc, domain)?;
    let found = domain_declared(alloc, found, tables, domain)?;
    let mut walk = Walk::new(alloc, found);
    let constraints = boxed_constraint(alloc, tables, &mut walk, &domain.constraints.body)?;
    let actions = numbered_actions(alloc, tables, &mut walk, domain.actions.items())?;
    Ok(DomainTrees {
        actions,
        constraints,
        found: walk.found,
    })
}

/// What is found in a problem beside what its texts use.
fn problem_begun(alloc: Global, problem: &Problem) -> Result<FirstOffences, NoMemory>
    ensures { IfOk result (λ found. found ≡ problem_start problem.now) }
{
    let duplicate = values_repeated(alloc, None, problem.init.items())?;
    Ok(FirstOffences {
        duplicate,
        unknown: None,
        miscount: None,
        clash: None,
    })
}

/// The goal and the constraints of a problem with numbers.
#[derive(Drop)]
pub(crate) struct GoalTrees {
    pub(crate) goal: Boxed<NumberedGoal>,
    pub(crate) constraints: Boxed<NumberedConstraint>,
}

/// The goal and the constraints of a problem with numbers, outside all variables; what is found in
/// them is noted.
#[tactic(auto, using(crate::proofs::FormLemmas::word_laws))]
fn goal_trees<'t>(
    alloc: Global,
    tables: &Tables<'t>,
    walk: &mut Walk<'t>,
    problem: &'t Problem,
) -> Result<GoalTrees, NoMemory>
    requires { walk.old.words ≡ [] }
    ensures walk { OnOk result (walk.new ≡ with_tree tables.now.task.now
        (constraint_uses problem.now.constraints.body)
        (with_tree tables.now.task.now (goal_uses problem.now.goal.body) walk.old)) }
    ensures goal { IfOk result
        (λ trees. trees.goal ≡ goal_of (numbers_of tables.now) problem.now.goal.body []) }
    ensures constraints { IfOk result (λ trees. trees.constraints
        ≡ constraint_of (numbers_of tables.now) problem.now.constraints.body []) }
{
    let goal = boxed_goal(alloc, tables, walk, &problem.goal.body)?;
    let constraints = boxed_constraint(alloc, tables, walk, &problem.constraints.body)?;
    Ok(GoalTrees { goal, constraints })
}

/// The trees of a problem with numbers, and what is found in it.
#[derive(Drop)]
pub(crate) struct ProblemTrees {
    pub(crate) start: InitialState,
    pub(crate) trees: GoalTrees,
    pub(crate) found: FirstOffences,
}

/// The trees of a problem with numbers, and what is found in it.
#[tactic(auto, using(crate::proofs::WholeLemmas::problem_laws), unfolding(p3_numbers::specs::Starts::start_of, p3_numbers::specs::Starts::initial_values_of))]
pub(crate) fn problem_trees<'t>(
    alloc: Global,
    tables: &Tables<'t>,
) -> Result<ProblemTrees, NoMemory>
    ensures found { IfOk result
        (λ trees. trees.found ≡ specs.problem_found tables.now.task.now) }
    ensures goal { IfOk result (λ trees. trees.trees.goal
        ≡ goal_of (numbers_of tables.now) tables.now.task.now.problem.goal.body []) }
    ensures constraints { IfOk result (λ trees. trees.trees.constraints
        ≡ constraint_of (numbers_of tables.now) tables.now.task.now.problem.constraints.body []) }
    ensures facts { IfOk result
        (λ trees. trees.start.facts ≡ start_of (numbers_of tables.now) tables.now.task.now) }
    ensures values { IfOk result (λ trees. trees.start.values
        ≡ initial_values_of (numbers_of tables.now) tables.now.task.now) }
{
    let problem = &tables.task.problem;
    let found = problem_begun(alloc, problem)?;
    let found = objects_noted(found, tables, problem.objects.items());
    let mut walk = Walk::new(alloc, found);
    let start = initial_state(alloc, tables, &mut walk, problem.init.items())?;
    let trees = goal_trees(alloc, tables, &mut walk, problem)?;
    metric_noted(alloc, tables, &mut walk, &problem.metric)?;
    Ok(ProblemTrees {
        start,
        trees,
        found: walk.found,
    })
}
