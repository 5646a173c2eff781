//! The least set of atoms that has the initial ones and what steps that may fit add.

ghost use Rattle.std.specs.Prelude.{◌≡◌, ◌<◌, ◌≤◌, ◌∷◌, ◌++◌, [], true, not, ◌||◌, take, length, IfOk, OnOk};
ghost use Rattle.std.specs.List.{list_all};
ghost use Rattle.p3_formula.specs.Conditions.{HasAtomsBelow, is_step_below};
ghost use Rattle.p3_formula.specs.Forms.{is_set};
ghost use Rattle.p3_reach.specs.Closed.{IsClosed, IsInEachClosed, HasEachReachable, FitsOnlyMarked, step_keeps, steps_that_may};
ghost use Rattle.p3_reach.specs.Models.{Says};

use crate::leading::lead_step;
use crate::may::may_hold;
use crate::model::least_model;
use crate::rounds::closed_by_rounds;
use crate::rules::Theory;
use p3_base::{List, NoMemory};
use p3_formula::{Bits, GroundStep, GroundTask};
use std::alloc::Global;

/// What may ever be: the atoms that may be set, and by the places of the steps, which may fit.
#[derive(Debug, Drop)]
pub struct Marks {
    /// The atoms.
    pub atoms: Bits,
    /// The steps.
    pub steps: List<bool>,
}

/// A proposition for each atom, of which the initial ones hold, and one more that holds. There are
/// no rules yet.
fn theory_of_atoms(alloc: Global, atoms: &Bits) -> Result<Theory, NoMemory>
    ensures atoms { IfOk result (λ theory. theory.atoms ≡ length atoms.now) }
    ensures facts { IfOk result (λ theory. theory.facts ≡ atoms.now ++ true ∷ []) }
    ensures rules { IfOk result (λ theory. theory.rules ≡ []) }
{
    let mut facts = List::new(alloc);
    for atom in 0..atoms.count() {
        facts.push(atoms.get(atom))?;
    }
    facts.push(true)?;
    Ok(Theory {
        atoms: atoms.count(),
        facts,
        rules: List::new(alloc),
    })
}

/// Says what the steps may add, if the proposition holds.
fn lead_steps(theory: &mut Theory, steps: &[GroundStep], given: usize) -> Result<(), NoMemory>
    requires below { list_all (is_step_below theory.old.atoms) steps.now ≡ true }
    requires given { given < length theory.old.facts }
    ensures { OnOk result
        (Says (λ set.
        not (is_set set given) || list_all (step_keeps set) steps.now) theory.old theory.new) }
{
    for step in steps {
        lead_step(theory, step, given)?;
    }
    Ok(())
}

/// The first of the bits.
fn first_bits(alloc: Global, bits: &Bits, count: usize) -> Result<Bits, NoMemory>
    requires { count ≤ length bits.now }
    ensures { IfOk result (λ first. first ≡ take count bits.now) }
{
    let mut first = Bits::new(alloc, count)?;
    for atom in 0..count {
        first.set(atom, bits.get(atom));
    }
    Ok(first)
}

/// The least closed set of atoms, by rules.
fn closed_by_rules(alloc: Global, task: &GroundTask) -> Result<Bits, NoMemory>
    requires atoms { HasAtomsBelow task.now }
    requires bits { length task.now.initial ≡ task.now.atoms }
    ensures closed { IfOk result (IsClosed task.now) }
    ensures least { IfOk result (IsInEachClosed task.now) }
{
    let mut theory = theory_of_atoms(alloc, &task.initial)?;
    lead_steps(&mut theory, task.steps.items(), task.atoms)?;
    first_bits(alloc, &least_model(alloc, &theory)?, task.atoms)
}

/// How many rounds are tried before the rules, which take more time and memory, whatever the task.
const ROUNDS: u32 = 16;

/// The least closed set of atoms. Nearly all tasks have it after a few rounds.
fn closed(alloc: Global, task: &GroundTask) -> Result<Bits, NoMemory>
    requires atoms { HasAtomsBelow task.now }
    requires bits { length task.now.initial ≡ task.now.atoms }
    ensures closed { IfOk result (IsClosed task.now) }
    ensures least { IfOk result (IsInEachClosed task.now) }
{
    match closed_by_rounds(alloc, task, ROUNDS)? {
        Some(atoms) => Ok(atoms),
        None => closed_by_rules(alloc, task),
    }
}

/// Whether each step may fit.
fn fitting(alloc: Global, steps: &[GroundStep], atoms: &Bits) -> Result<List<bool>, NoMemory>
    requires { list_all (is_step_below (length atoms.now)) steps.now ≡ true }
    ensures { IfOk result (λ fits. fits ≡ steps_that_may atoms.now steps.now) }
{
    let mut fits = List::new(alloc);
    for step in steps {
        fits.push(may_hold(&step.pre, atoms))?;
    }
    Ok(fits)
}

/// What may ever be. An atom is marked exactly where each closed set has it, and a step exactly
/// where its precondition may hold over the marked atoms. Each occurrence of an atom is looked at
/// a bounded number of times.

pub fn reachable(alloc: Global, task: &GroundTask) -> Result<Marks, NoMemory>
    requires atoms { HasAtomsBelow task.now }
    requires bits { length task.now.initial ≡ task.now.atoms }
    // The marked atoms are the least closed set.
    ensures closed { IfOk result (λ marks. IsClosed task.now marks.atoms) }
    ensures least { IfOk result (λ marks. IsInEachClosed task.now marks.atoms) }
    ensures steps { IfOk result (λ marks. marks.steps ≡ steps_that_may marks.atoms task.now.steps) }
    // What is not marked is false in every reachable state.
    ensures reached { IfOk result (λ marks. HasEachReachable task.now marks.atoms) }
    ensures unfit { IfOk result (FitsOnlyMarked task.now) }
{
    let atoms = closed(alloc, task)?;
    let steps = fitting(alloc, task.steps.items(), &atoms)?;
    Ok(Marks { atoms, steps })
}
