//! Literals, and what they decide.

ghost use Rattle.std.specs.Prelude.{◌≡◌, map, IfOk};
ghost use Rattle.p3_reasons.specs.Outcomes.{decision_of, literal_of};
ghost use Rattle.p3_reasons.specs.Gathering.{outcome_of};

use crate::Facts;
use crate::gathered::{Finding, each_once};
use p3_base::{List, NoMemory};
use p3_expansion::Atoms;
use std::alloc::Global;

/// A ground atom that is true, or one that is false.
#[derive(Debug, Drop)]
pub struct Literal {
    /// The number of the predicate, and then those of the objects.
    pub atom: List<u32>,
    /// Whether it is true.
    pub holds: bool,
}

/// Whether a condition holds in a state, and literals that decide it there.
#[derive(Debug, Drop)]
pub struct Decision {
    /// Whether it holds.
    pub holds: bool,
    /// The literals, no atom twice.
    pub literals: List<Literal>,
}

/// The literal of an atom.
fn said<F: Facts>(alloc: Global, facts: &F, atom: &[u32]) -> Result<Literal, NoMemory>
    ensures { IfOk result (λ literal. literal ≡ literal_of (F.has_atom facts.now) atom.now) }
{
    let holds = facts.has(atom);
    let atom = List::from(Vec::from_slice(alloc, atom)?);
    Ok(Literal { atom, holds })
}

/// The literals of the atoms.
fn literals<F: Facts>(alloc: Global, facts: &F, atoms: &Atoms) -> Result<List<Literal>, NoMemory>
    ensures { IfOk result (λ list. list ≡ map (literal_of (F.has_atom facts.now)) atoms.now) }
{
    let mut list = List::new(alloc);
    for number in 0..atoms.len() {
        match atoms.get(number) {
            Some(atom) => list.push(said(alloc, facts, atom)?)?,
            None => {}
        }
    }
    Ok(list)
}

/// What a condition finding to, with its literals.
pub(crate) fn decided<F: Facts>(
    alloc: Global,
    facts: &F,
    finding: &Finding,
) -> Result<Decision, NoMemory>
    ensures { IfOk result (λ decision. decision
        ≡ decision_of (F.has_atom facts.now) (outcome_of finding.now)) }
{
    let atoms = each_once(alloc, &finding.atoms)?;
    let literals = literals(alloc, facts, &atoms)?;
    Ok(Decision {
        holds: finding.holds,
        literals,
    })
}
