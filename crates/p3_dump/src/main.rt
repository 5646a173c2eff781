//! Prints what is made of the files `domain.pddl` and `problem.pddl` that lie in the folder, each thing on
//! a line as its type prints itself: the tree, the numbered task, its atoms and steps, the ground task, the
//! weights and the target.
#![tactic(auto)]

use p3_base::{RealFiles, Role, Word};
use p3_cli::{Input, read_all, whole_task};
use p3_compile::compile;
use p3_eval::Whole;
use p3_meanings::ground_atoms;
use std::alloc::Global;
use std::process::ExitCode;
use std::rt::Files;

fn main(rt: HostRuntime) -> ExitCode {
    match dump(&rt) {
        Some(()) => ExitCode::SUCCESS,
        None => ExitCode::FAILURE,
    }
}

/// Prints all of it, or nothing where the task is refused.
fn dump<R: Files + AllocGlobal + Print + Clone + Drop>(rt: &R) -> Option<()> {
    let whole = read_task(rt)?;
    put_whole(rt, rt.alloc(), &whole)
}

/// Reads the task, or nothing where a file is not read or the task is refused.
fn read_task<R: Files + AllocGlobal + Clone + Drop>(rt: &R) -> Option<Whole> {
    let alloc = rt.alloc();
    let domain = Word::of(alloc, b"domain.pddl").ok()?;
    let problem = Word::of(alloc, b"problem.pddl").ok()?;
    let inputs = [
        Input {
            role: Role::Domain,
            name: &domain,
        },
        Input {
            role: Role::Problem,
            name: &problem,
        },
    ];
    let texts = read_all(alloc, &mut RealFiles::new(rt), &inputs).ok()?;
    whole_task(alloc, &texts).ok()
}

/// Prints a task and what is made of it.
fn put_whole<R: Print>(rt: &R, alloc: Global, whole: &Whole) -> Option<()> {
    println!(rt; "tree {:?}", whole.checked().task()).ok()?;
    println!(rt; "numbered {:?}", whole.checked().numbered()).ok()?;
    put_atoms(rt, alloc, whole)?;
    put_steps(rt, alloc, whole)?;
    println!(rt; "ground {:?}", whole.ground_task()).ok()?;
    println!(rt; "weights {:?}", whole.weights()).ok()?;
    put_target(rt, alloc, whole)
}

/// Prints the atoms, each as the numbers of its predicate and its objects.
fn put_atoms<R: Print>(rt: &R, alloc: Global, whole: &Whole) -> Option<()> {
    let atoms = ground_atoms(alloc, whole.checked()).ok()?;
    for number in 0..atoms.len() {
        println!(rt; "atom {:?}", atoms.get(number)?).ok()?;
    }
    Some(())
}

/// Prints the words of each ground step.
fn put_steps<R: Print>(rt: &R, alloc: Global, whole: &Whole) -> Option<()> {
    let checked = whole.checked();
    for ground in whole.ground_task().steps.items() {
        if ground.number >= checked.step_count() {
            return None;
        }
        let step = checked.step(alloc, ground.number).ok()?;
        println!(rt; "step {step:?}").ok()?;
    }
    Some(())
}

/// Prints the target.
fn put_target<R: Print>(rt: &R, alloc: Global, whole: &Whole) -> Option<()> {
    let target = compile(alloc, whole.ground_task(), whole.weights()).ok()?;
    println!(rt; "target {target:?}").ok()
}
