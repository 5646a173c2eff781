//! Texts of plans, judged by one call, and a plan that is explained by another.

ghost use Rattle.std.specs.Prelude.{◌≤◌, length, IfOk};
ghost use Rattle.p3_base.specs.declared.refusal.Side.TheVariants.{Source};
ghost use Rattle.p3_task.specs.PlanTexts.{step_limit};
ghost use Rattle.p3_task.specs.Sides.{byte_limit, plan_byte_limit};

use p3_base::{Code, NoMemory, Pos, Reason, Refusal, Role, Showing, Side, Subject};
use p3_eval::{FaultKind, PlanFault, TextVerdict, Whole, judge_text};
use p3_explain::explain;
use p3_plans::read_plan;
use p3_syntax::{read_domain, read_problem};
use p3_task::Plan;
use p3_types::check;
use std::alloc::Global;
use std::test::Fail;

/// Trucks that carry crates.
const TRUCKS: &str = "(define (domain Trucks-Pref)
  (:requirements :adl :preferences :constraints :action-costs)
  (:types truck crate - movable place)
  (:predicates (at ?x - (either truck crate) ?p - place)
    (in ?c - crate ?t - truck))
  (:functions (total-cost) - number
    (road-length ?a ?b - place) - number)
  (:action drive :parameters (?t - truck ?a ?b - place)
    :precondition (at ?t ?a)
    :effect (and (not (at ?t ?a)) (at ?t ?b)
      (increase (total-cost) (road-length ?a ?b))))
  (:action load :parameters (?c - crate ?t - truck ?p - place)
    :precondition (and (at ?t ?p) (at ?c ?p)
      (preference light (forall (?d - crate) (not (in ?d ?t)))))
    :effect (and (not (at ?c ?p)) (in ?c ?t)))
  (:action unload :parameters (?c - crate ?t - truck ?p - place)
    :precondition (and (at ?t ?p) (in ?c ?t))
    :effect (and (not (in ?c ?t)) (at ?c ?p))))
";

/// One truck, two crates and three places.
const DELIVERY: &str = "(define (problem deliver-2) (:domain trucks-pref)
  (:objects t1 - truck c1 c2 - crate a b c - place)
  (:init (at t1 a) (at c1 a) (at c2 a) (= (total-cost) 0)
    (= (road-length a b) 4) (= (road-length b a) 4)
    (= (road-length b c) 7) (= (road-length c b) 7))
  (:goal (and (at c1 b) (preference home (at c2 c))
    (preference back (at t1 a))))
  (:constraints (and
    (always (forall (?t - truck) (exists (?p - place) (at ?t ?p))))
    (forall (?c - crate) (preference once (at-most-once (in ?c t1))))
    (preference late (sometime-before (at t1 c) (at c1 b)))))
  (:metric minimize (+ (total-cost) (* 6 (is-violated light))
    (* 20 (is-violated back)) (* 15 (is-violated home))
    (* 3 (is-violated once)) (* 1 (is-violated late)))))
";

/// Both crates are brought to their places, and the truck stays with the second.
const BOTH_CRATES: &str =
    "(load c1 t1 a) (load c2 t1 a) (drive t1 a b) (unload c1 t1 b) (drive t1 b c) (unload c2 t1 c)";

/// A step that undoes its own precondition.
const ONCE: &str =
    "(define (domain d) (:predicates (p)) (:action a :precondition (not (p)) :effect (p)))";

const NOTHING: &str = "(define (problem q) (:domain d) (:init) (:goal (and)))";

/// Reads a task, and accepts it.
fn task_of(alloc: Global, domain: &[u8], problem: &[u8]) -> Result<Whole, NoMemory>
    requires domain { length domain.now ≤ byte_limit Source }
    requires problem { length problem.now ≤ byte_limit Source }
{
    let Ok(domain) = read_domain(alloc, Side::Source, domain) else {
        return Err(NoMemory);
    };
    let Ok(problem) = read_problem(alloc, Side::Source, problem) else {
        drop(domain);
        return Err(NoMemory);
    };
    let Ok(checked) = check(alloc, Side::Source, domain, problem) else {
        return Err(NoMemory);
    };
    match Whole::accept(alloc, checked) {
        Ok(whole) => Ok(whole),
        Err(_) => Err(NoMemory),
    }
}

/// What is told of a plan, and of the steps of it that were done.
#[derive(Clone, Copy)]
struct Judged {
    verdict: TextVerdict,
    steps: u32,
    cost: i128,
    metric: i128,
}

/// Judges the text of a plan for a task.
fn judge(alloc: Global, whole: &Whole, text: &[u8]) -> Result<Judged, NoMemory>
    requires { length text.now ≤ plan_byte_limit }
{
    let mut run = whole.begin(alloc)?;
    let verdict = judge_text(whole, &mut run, text);
    let judged = Judged {
        verdict,
        steps: run.steps(),
        cost: run.total_cost(),
        metric: run.metric(),
    };
    drop(run);
    Ok(judged)
}

/// Judges the plan that brings both crates to their places.
fn judge_delivery(alloc: Global) -> Result<Judged, NoMemory> {
    let whole = task_of(alloc, TRUCKS.as_bytes(), DELIVERY.as_bytes())?;
    let judged = judge(alloc, &whole, BOTH_CRATES.as_bytes());
    drop(whole);
    judged
}

#[test]
fn a_valid_plan_has_its_value(rt: HostRuntime) -> Result<(), Fail> {
    let judged = judge_delivery(rt.alloc())?;
    assert!(&rt; matches!(judged.verdict, TextVerdict::Valid));
    let numbers = (judged.steps, judged.cost, judged.metric);
    assert_eq!(&rt; numbers, (6, 11, 37));
    Ok(())
}

/// Judges the text of a plan of steps that undo their own precondition.
fn judge_once(alloc: Global, text: &[u8]) -> Result<Judged, NoMemory>
    requires { length text.now ≤ plan_byte_limit }
{
    let whole = task_of(alloc, ONCE.as_bytes(), NOTHING.as_bytes())?;
    let judged = judge(alloc, &whole, text);
    drop(whole);
    judged
}

#[test]
fn a_plan_is_not_valid_at_its_second_step(rt: HostRuntime) -> Result<(), Fail> {
    let judged = judge_once(rt.alloc(), b"(a) (a)")?;
    assert!(&rt;
        matches!(
            judged.verdict,
            TextVerdict::Invalid(PlanFault {
                step: 2,
                kind: FaultKind::Precondition,
            })
        )
    );
    Ok(())
}

#[test]
fn a_plan_that_is_cut_is_refused_at_its_end(rt: HostRuntime) -> Result<(), Fail> {
    let judged = judge_once(rt.alloc(), b"(a) (a")?;
    assert!(&rt;
        matches!(
            judged.verdict,
            TextVerdict::Refused(Refusal {
                code: Code::Unbalanced,
                pos: Pos {
                    role: Role::Plan,
                    offset: 6,
                },
                ..
            })
        )
    );
    Ok(())
}

/// A lamp is to be on at most once.
const LAMP: &str =
    "(define (domain d) (:predicates (p)) (:action on :effect (p)) (:action off :effect (not (p))))";

const LIT: &str =
    "(define (problem q) (:domain d) (:init (p)) (:goal (and)) (:constraints (preference o (at-most-once (p)))))";

/// Reads the plan that lights the lamp once more.
fn lamp_plan(alloc: Global) -> Result<Plan, NoMemory>
    ensures { IfOk result (λ plan. length plan ≤ step_limit) }
{
    match read_plan(alloc, b"(on) (off) (on)") {
        Ok(plan) => Ok(plan),
        Err(_) => Err(NoMemory),
    }
}

/// Explains a plan, and gives how many reasons are told, and the first of them.
fn first_reason(alloc: Global, whole: &Whole, plan: &Plan) -> Result<(usize, Reason), NoMemory>
    requires { length plan.now ≤ step_limit }
{
    let Ok(reasons) = explain(alloc, whole, plan) else {
        return Err(NoMemory);
    };
    let found = match reasons.get(0) {
        Some(reason) => Ok((reasons.len(), *reason)),
        None => Err(NoMemory),
    };
    drop(reasons);
    found
}

/// Does so with the plan of the lamp.
fn lamp_reason(alloc: Global) -> Result<(usize, Reason), NoMemory> {
    let plan = lamp_plan(alloc)?;
    let whole = task_of(alloc, LAMP.as_bytes(), LIT.as_bytes())?;
    let found = first_reason(alloc, &whole, &plan);
    drop(whole);
    drop(plan);
    found
}

#[test]
fn a_lamp_is_on_again(rt: HostRuntime) -> Result<(), Fail> {
    let (count, reason) = lamp_reason(rt.alloc())?;
    assert_eq!(&rt; count, 1);
    assert!(&rt;
        matches!(
            reason,
            Reason {
                subject: Subject::Soft {
                    instance: 0,
                    part: 0,
                },
                showing: Showing::Again {
                    first: 0,
                    gap: 2,
                    again: 3,
                },
            }
        )
    );
    Ok(())
}
