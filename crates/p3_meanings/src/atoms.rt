//! The ground atoms of a written task.

ghost use Rattle.std.specs.Prelude.{◌≡◌, ◌<◌, ◌≤◌, IfErr, IfOk, OnErr, OnOk, [], length};
ghost use Rattle.std.specs.Prelude.{slice_index_or};
ghost use Rattle.p3_base.specs.Outside.{IsPartlyPut, IsPut};
ghost use Rattle.p3_task.specs.Costs.{cost_places};
ghost use Rattle.p3_task.specs.Limits.{step_count};
ghost use Rattle.p3_task.specs.Offences.{WellFormed};
ghost use Rattle.p3_task.specs.Sides.{step_count_limit};
ghost use Rattle.p3_expansion.specs.Statics.{AreStatics};
ghost use Rattle.p3_ground.specs.Whole.{HasFewSteps};
ghost use Rattle.p3_accounts.specs.Meanings.{meaning_line};
ghost use Rattle.p3_accounts.specs.Vocabularies.{vocabulary};
ghost use Rattle.p3_meanings.specs.Atoms.{AreAtomsOf, AreExpandedOver, atom_said, atoms_said};
ghost use Rattle.p3_meanings.specs.Names.{IsFailOf};
ghost use Rattle.p3_meanings.specs.Said.{said_line, said_lines};

use crate::error::NamesFail;
use crate::lines::put_line;
use crate::telling::Telling;
use p3_accounts::{Meaning, Meant};
use p3_base::{List, NoMemory, Sink, as_number};
use p3_expansion::{Atoms, Statics, Work, hard_constraints, hard_form, soft_constraints};
use p3_formula::{Form, GroundModal, GroundSoft, GroundStep};
use p3_steps::{EffectCosts, steps};
use p3_types::Checked;
use std::alloc::Global;

/// What is expanded of a task over its atoms.
#[derive(Drop)]
struct Expanded {
    steps: List<GroundStep>,
    goal: Form,
    hard: List<GroundModal>,
    soft: List<GroundSoft>,
}

/// Expands a task once more, in the order in which it is grounded, so that each of its atoms gets the
/// number that it has there.
fn expand(
    checked: &Checked,
    statics: &Statics,
    costs: &EffectCosts,
    work: &mut Work,
) -> Result<Expanded, NoMemory>
    requires well { WellFormed checked.now.task }
    requires few { HasFewSteps checked.now.numbered }
    requires statics { AreStatics checked.now.numbered statics.now }
    requires values { costs.now.values.now ≡ checked.now.numbered.values }
    requires none { work.old.atoms ≡ [] }
    ensures { IfOk result (AreExpandedOver checked.now.task checked.now.numbered statics.now
        costs.now.places work.new.atoms) }
{
    let task = checked.numbered();
    let steps = steps(task, statics, costs, work)?;
    let goal = hard_form(&task.numbers, statics, work, &[], &task.goal)?;
    let hard = hard_constraints(task, statics, work)?;
    let soft = soft_constraints(task, statics, work)?;
    // no two atoms are the same
    let _ = work.atoms.len();
    Ok(Expanded {
        steps,
        goal,
        hard,
        soft,
    })
}

/// Expands a task once more, with what no step changes and what effects cost, and keeps its atoms.
fn atoms_over(
    alloc: Global,
    checked: &Checked,
    statics: &Statics,
    costs: &EffectCosts,
) -> Result<Atoms, NoMemory>
    requires well { WellFormed checked.now.task }
    requires few { HasFewSteps checked.now.numbered }
    requires statics { AreStatics checked.now.numbered statics.now }
    requires values { costs.now.values.now ≡ checked.now.numbered.values }
    requires places { costs.now.places ≡ cost_places checked.now.task }
    ensures { IfOk result (AreAtomsOf checked.now.task checked.now.numbered.numbers) }
{
    let mut work = Work::new(alloc);
    let expanded = expand(checked, statics, costs, &mut work)?;
    drop(expanded);
    Ok(work.atoms)
}

/// The ground atoms of a task. Each has the number by which the written task names it, since the
/// task is expanded once more as it is when it is grounded.
///
/// # Errors
///
/// Want of memory.
#[tactic(auto, using(crate::proofs::GroundLemmas::few_steps))]
pub fn ground_atoms(alloc: Global, checked: &Checked) -> Result<Atoms, NoMemory>
    requires { step_count checked.now.task ≤ step_count_limit }
    ensures { IfOk result (AreAtomsOf checked.now.task checked.now.numbered.numbers) }
{
    // what is known of a checked task
    let _ = checked.task();
    let numbered = checked.numbered();
    let statics = Statics::of(alloc, numbered)?;
    let costs = EffectCosts::of(alloc, numbered.values.items(), checked.cost_places())?;
    let atoms = atoms_over(alloc, checked, &statics, &costs)?;
    Ok(atoms)
}

/// Tells what the name of the atom of a number stands for.
#[tactic(auto, using(crate::proofs::AtomLemmas::atom_is_told))]
fn atom_meaning(telling: &Telling<'_>, atoms: &Atoms, number: usize) -> Result<Meaning, NoMemory>
    requires { number < length atoms.now }
    ensures { IfOk result (λ meaning. meaning_line (vocabulary telling.now.terms.now) meaning
        ≡ said_line (vocabulary telling.now.terms.now) number
        (atom_said telling.now.terms.now.numbers.now (slice_index_or atoms.now number []))) }
{
    let Some(atom) = atoms.get(number) else {
        unreachable!()
    };
    let words = List::from(Vec::from_slice(telling.alloc, atom)?);
    let number = as_number(number)?;
    Ok(Meaning {
        spot: None,
        number,
        of: Meant::Atom(words),
    })
}

/// Puts the line of the atom of a number.
fn put_atom<S: Sink>(
    telling: &Telling<'_>,
    atoms: &Atoms,
    number: usize,
    out: &mut S,
) -> Result<(), NamesFail>
    requires { number < length atoms.now }
    ensures ok { OnOk result (IsPut (said_line (vocabulary telling.now.terms.now) number
        (atom_said telling.now.terms.now.numbers.now (slice_index_or atoms.now number [])))
        (S.seen out.old).written (S.seen out.new).written) }
    ensures partly { OnErr result (IsPartlyPut (said_line (vocabulary telling.now.terms.now) number
        (atom_said telling.now.terms.now.numbers.now (slice_index_or atoms.now number [])))
        (S.seen out.old).written (S.seen out.new).written) }
    ensures failed { IfErr result (IsFailOf (S.seen out.old).faults (S.seen out.new).faults) }
    ensures faults_grow { (S.seen out.old).faults ≤ (S.seen out.new).faults }
{
    match atom_meaning(telling, atoms, number) {
        Ok(meaning) => put_line(&meaning, telling.terms, out),
        Err(NoMemory) => Err(NamesFail::NoMemory),
    }
}

/// Puts the lines of the atoms, in order.
pub(crate) fn put_atoms<S: Sink>(
    telling: &Telling<'_>,
    atoms: &Atoms,
    out: &mut S,
) -> Result<(), NamesFail>
    ensures ok { OnOk result (IsPut (said_lines (vocabulary telling.now.terms.now) 0
        (atoms_said telling.now.terms.now.numbers.now atoms.now))
        (S.seen out.old).written (S.seen out.new).written) }
    ensures partly { OnErr result (IsPartlyPut (said_lines (vocabulary telling.now.terms.now) 0
        (atoms_said telling.now.terms.now.numbers.now atoms.now))
        (S.seen out.old).written (S.seen out.new).written) }
    ensures failed { IfErr result (IsFailOf (S.seen out.old).faults (S.seen out.new).faults) }
    ensures faults_grow { (S.seen out.old).faults ≤ (S.seen out.new).faults }
{
    for number in 0..atoms.len() {
        put_atom(telling, atoms, number, out)?;
    }
    Ok(())
}
