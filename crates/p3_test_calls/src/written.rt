//! Texts of targets that no task is compiled to.

ghost use Rattle.std.specs.Prelude.{◌≡◌, ◌∷◌, ◌++◌, [], codes, map, IsTrue, IfOk};
ghost use Rattle.std.specs.List.{list_all};
ghost use Rattle.p3_base.specs.Words.{is_name, is_predicate_name};
ghost use Rattle.p3_formula.specs.Forms.{IsBelow};
ghost use Rattle.p3_formula.specs.Targets.{IsSized, action_names, is_sized_action};
ghost use Rattle.p3_writer.specs.Texts.{AreSpelled};

use p3_base::{List, Name, NoMemory};
use p3_formula::{Bits, Change, Effects, Form, Target, TargetAction};
use p3_writer::{write_domain, write_problem};
use std::alloc::Global;
use std::test::Fail;

const MOVE_DOMAIN: &str =
    "(define (domain compiled)\n(:requirements :adl :action-costs)\n(:predicates (p) (q))\n(:functions (total-cost) - number)\n(:action move :parameters ()\n :precondition (and)\n :effect (and (when (q) (not (p))) (q) (increase (total-cost) 7)))\n)\n";

const MOVE_PROBLEM: &str =
    "(define (problem compiled)\n(:domain compiled)\n(:init (= (total-cost) 0))\n(:goal (and))\n(:metric minimize (total-cost)))\n";

/// The bytes of a domain's text beside its actions.
const SHELL_BYTES: usize = 120;

fn both_changes(alloc: Global, first: Change, second: Change) -> Result<Effects, NoMemory>
    ensures { IfOk result (λ effects. effects ≡ first ∷ second ∷ []) }
{
    let mut effects = List::new(alloc);
    effects.push(first)?;
    effects.push(second)?;
    Ok(effects)
}

/// It deletes where a condition holds, adds, and costs 7.
#[tactic(auto, using(p3_formula::proofs::FormLemmas::atom_laws))]
fn conditional(alloc: Global) -> Result<TargetAction, NoMemory>
    ensures sized { IfOk result (λ action. IsTrue (is_sized_action 2 action)) }
    ensures name { IfOk result (λ action. action.name ≡ codes "move") }
{
    let name = Name::of(alloc, b"move")?;
    let deleted = Change {
        cond: Form::Atom(1),
        atom: 0,
        add: false,
    };
    let added = Change {
        cond: Form::True,
        atom: 1,
        add: true,
    };
    let effects = both_changes(alloc, deleted, added)?;
    let pre = Form::True;
    Ok(TargetAction {
        name,
        pre,
        effects,
        cost: 7,
    })
}

/// So many actions, all alike: the writer does not ask that names differ.
fn alike(alloc: Global, count: u32) -> Result<List<TargetAction>, NoMemory>
    ensures sized { IfOk result (λ actions. IsTrue (list_all (is_sized_action 2) actions)) }
    ensures names { IfOk result (λ actions.
        IsTrue (list_all is_name (map (λ action. action.name) actions))) }
    ensures spelled { IfOk result (λ actions. AreSpelled (map (λ action. action.name) actions)) }
{
    let mut actions = List::new(alloc);
    for _ in 0..count {
        actions.push(conditional(alloc)?)?;
    }
    Ok(actions)
}

/// Two predicates.
fn two_predicates(alloc: Global) -> Result<List<Name>, NoMemory>
    ensures { IfOk result (λ names. names ≡ codes "p" ∷ codes "q" ∷ []) }
{
    let mut predicates = List::new(alloc);
    predicates.push(Name::of(alloc, b"p")?)?;
    predicates.push(Name::of(alloc, b"q")?)?;
    Ok(predicates)
}

/// Two predicates, no atom that is set, so many actions, and this goal.
#[tactic(auto, using(p3_formula::proofs::FormLemmas::atom_laws))]
fn with_goal(alloc: Global, count: u32, goal: Form) -> Result<Target, NoMemory>
    requires { IsBelow 2 goal }
    ensures sized { IfOk result IsSized }
    ensures predicates { IfOk result (λ X. IsTrue (list_all is_predicate_name X.predicates)) }
    ensures actions { IfOk result (λ X. IsTrue (list_all is_name (action_names X))) }
    ensures spelled { IfOk result (λ X. AreSpelled (X.predicates ++ action_names X)) }
{
    let predicates = two_predicates(alloc)?;
    let initial = Bits::new(alloc, 2)?;
    let actions = alike(alloc, count)?;
    Ok(Target {
        predicates,
        initial,
        actions,
        goal,
    })
}

#[tactic(auto, using(p3_formula::proofs::FormLemmas::atom_laws))]
fn always() -> Form
    ensures { IsBelow 2 result }
{
    Form::True
}

/// An atom under so many negations.
#[tactic(auto, using(p3_formula::proofs::FormLemmas::atom_laws))]
fn deep(alloc: Global, levels: u32) -> Result<Form, NoMemory>
    ensures { IfOk result (IsBelow 2) }
{
    let mut form = Form::Atom(0);
    for _ in 0..levels {
        form = Form::negation(alloc, form)?;
    }
    Ok(form)
}

/// Gives the domain of a target with so many actions.
fn domain_of(alloc: Global, count: u32) -> Result<Vec<u8>, NoMemory> {
    let target = with_goal(alloc, count, always())?;
    let domain = write_domain(alloc, &target);
    drop(target);
    domain
}

/// Gives the problem of a target whose goal always holds.
fn always_problem(alloc: Global) -> Result<Vec<u8>, NoMemory> {
    let target = with_goal(alloc, 1, always())?;
    let problem = write_problem(alloc, &target);
    drop(target);
    problem
}

#[test]
fn what_always_holds_is_written(rt: HostRuntime) -> Result<(), Fail> {
    let problem = always_problem(rt.alloc())?;
    assert_eq!(rt; problem.as_slice(), MOVE_PROBLEM.as_bytes());
    Ok(())
}

/// Gives the problem of a target whose goal is an atom under so many negations.
fn deep_problem(alloc: Global, levels: u32) -> Result<Vec<u8>, NoMemory> {
    let goal = deep(alloc, levels)?;
    let target = with_goal(alloc, 1, goal)?;
    let problem = write_problem(alloc, &target);
    drop(target);
    problem
}

/// How many bytes that has.
fn deep_size(alloc: Global, levels: u32) -> Result<usize, NoMemory> {
    let problem = deep_problem(alloc, levels)?;
    Ok(problem.len())
}

#[test]
fn a_deep_goal_is_written(rt: HostRuntime) -> Result<(), Fail> {
    let alloc = rt.alloc();
    let flat = deep_size(alloc, 0)?;
    let deep = deep_size(alloc, 1000)?;
    assert_eq!(rt; deep.checked_sub(flat), Some(1000 * "(not )".len()));
    Ok(())
}

#[test]
fn a_domain_of_one_action_is_written(rt: HostRuntime) -> Result<(), Fail> {
    let domain = domain_of(rt.alloc(), 1)?;
    assert_eq!(rt; domain.as_slice(), MOVE_DOMAIN.as_bytes());
    Ok(())
}

#[test]
fn a_large_domain_is_written(rt: HostRuntime) -> Result<(), Fail> {
    let domain = domain_of(rt.alloc(), 800_000)?;
    let one = MOVE_DOMAIN.len() - SHELL_BYTES;
    assert_eq!(rt; domain.len(), SHELL_BYTES + 800_000 * one);
    Ok(())
}
