//! A long chain of steps.

ghost use Rattle.std.specs.Prelude.{◌≡◌, ◌<◌, ◌+◌, [], ◌∷◌, Some, IfOk, length, true};
ghost use Rattle.std.specs.List.{list_all};
ghost use Rattle.p3_formula.specs.Conditions.{HasAtomsBelow, is_step_below};
ghost use Rattle.p3_formula.specs.Forms.{AreBelow};

use p3_base::{List, NoMemory};
use p3_formula::{Bits, Change, Effects, Form, GroundStep, GroundTask};
use p3_reach::{Marks, reachable};
use std::alloc::Global;
use std::test::Fail;

/// The atom is set.
fn adds(alloc: Global, atom: usize) -> Result<Effects, NoMemory>
    ensures { IfOk result (λ effects.
        effects ≡ record { cond = Form.True; atom = atom; add = true } ∷ []) }
{
    let mut effects = List::new(alloc);
    effects.push(Change {
        cond: Form::True,
        atom,
        add: true,
    })?;
    Ok(effects)
}

/// A step without preferences that sets an atom.
fn step(alloc: Global, number: u32, pre: Form, atom: usize) -> Result<GroundStep, NoMemory>
    ensures { IfOk result (λ step.
        step ≡ record {
          number = number;
          pre = pre;
          prefs = [];
          effects = record
              { cond = Form.True; atom = atom; add = true } ∷ [];
          cost = Some 0;
        }) }
{
    let effects = adds(alloc, atom)?;
    Ok(GroundStep {
        number,
        pre,
        prefs: List::new(alloc),
        effects,
        cost: Some(0),
    })
}

/// A task of steps alone.
#[tactic(auto, using(p3_formula::proofs::FormLemmas::atom_laws))]
fn task_of(alloc: Global, initial: Bits, steps: List<GroundStep>) -> GroundTask
    requires { list_all (is_step_below (length initial)) steps ≡ true }
    ensures atoms { HasAtomsBelow result }
    ensures bits { length result.initial ≡ result.atoms }
{
    GroundTask {
        atoms: initial.count(),
        initial,
        initial_cost: 0,
        step_count: 100_000,
        steps,
        goal: Form::True,
        hard: List::new(alloc),
        soft: List::new(alloc),
        names: 0,
    }
}

/// How many steps there are, and how many atoms each of them wants.
const STEPS: usize = 100_000;

const WIDTH: usize = 10;

const ATOMS: usize = 100_010;

/// So many atoms from the first one on.
#[tactic(auto, using(p3_formula::proofs::FormLemmas::atom_laws))]
fn wanted(alloc: Global, first: usize) -> Result<List<Form>, NoMemory>
    requires { first + WIDTH < ATOMS }
    ensures { IfOk result (AreBelow ATOMS) }
{
    let mut parts = List::new(alloc);
    for place in 0..WIDTH {
        parts.push(Form::Atom(first + place))?;
    }
    Ok(parts)
}

/// The step that wants the atoms from its number on, and sets the one behind them.
#[tactic(auto, using(p3_formula::proofs::FormLemmas::atom_laws))]
fn link(alloc: Global, number: usize) -> Result<GroundStep, NoMemory>
    requires { number < STEPS }
    ensures { IfOk result (λ step. is_step_below ATOMS step ≡ true) }
{
    let pre = Form::And(wanted(alloc, number)?);
    step(alloc, number as u32, pre, number + WIDTH)
}

/// The last step of the chain comes first.
fn links(alloc: Global) -> Result<List<GroundStep>, NoMemory>
    ensures { IfOk result (λ steps. list_all (is_step_below ATOMS) steps ≡ true) }
{
    let mut steps = List::new(alloc);
    for passed in 0..STEPS {
        steps.push(link(alloc, STEPS - 1 - passed)?)?;
    }
    Ok(steps)
}

/// The atoms that the first step wants.
fn start(alloc: Global) -> Result<Bits, NoMemory>
    ensures { IfOk result (λ state. length state ≡ ATOMS) }
{
    let mut state = Bits::new(alloc, ATOMS)?;
    for atom in 0..WIDTH {
        state.set(atom, true);
    }
    Ok(state)
}

fn chain_marks(alloc: Global) -> Result<Marks, NoMemory> {
    let initial = start(alloc)?;
    let steps = links(alloc)?;
    let task = task_of(alloc, initial, steps);
    let marks = reachable(alloc, &task);
    drop(task);
    marks
}

#[test]
fn every_step_of_a_long_chain_is_reached(rt: HostRuntime) -> Result<(), Fail> {
    let marks = chain_marks(rt.alloc())?;
    let are_set = marks.steps.items().iter().all(|mark| *mark);
    drop(marks);
    assert!(rt; are_set);
    Ok(())
}
