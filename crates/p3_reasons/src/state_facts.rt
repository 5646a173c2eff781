//! The facts of a state that steps change.

ghost use Rattle.std.specs.Prelude.{◌≡◌, ℕ, not, List as Items, bytes_eq, if◌then◌else◌, map, OnOk, IfOk};
ghost use Rattle.std.specs.List.{list_any};
ghost use Rattle.p3_expansion.specs.Statics.{atom_of};
ghost use Rattle.p3_reasons.specs.Effects.{
  changed,
  noted,
  taken as literals_of,
  truth_of,
  with_truth,
};

use crate::effect::effect_literals;
use crate::{Facts, Literal};
use indexmap::IndexMap;
use p3_base::NoMemory;
use p3_numbers::{NumberedEffect, NumberedFact, NumberedTask, Numbers};
use std::alloc::Global;
use std::marker::Model;

/// The ground atoms of which it is known whether they are true: those that were true at the start, and
/// those that a step changed. All others are false.
#[derive(Drop)]
pub struct StateFacts {
    truths: IndexMap<Vec<u32>, bool>,
}

impl Model for StateFacts {
    ghost use Rattle.std.specs.Prelude.{List, ℕ, Bool, map};

    ghost Value = { List (List ℕ × Bool) };

    ghost view = { λ facts. map (λ entry. (entry.0.items, entry.1)) facts.truths.entries };
}

/// Whether the literal says that its atom is true, or else that it is false.
fn is_so(literal: &Literal, holds: bool) -> bool
    ensures { result ≡ (if holds then literal.now.holds else not literal.now.holds) }
{
    if holds { literal.holds } else { !literal.holds }
}

/// The words of an atom.
fn words_of(alloc: Global, fact: &NumberedFact) -> Result<Vec<u32>, NoMemory>
    ensures { IfOk result (λ words. words.items ≡ atom_of fact.now) }
{
    let mut words = Vec::new(alloc);
    words.push(fact.predicate)?;
    for object in fact.objects.items() {
        words.push(*object)?;
    }
    Ok(words)
}

impl Facts for StateFacts {
    ghost has_atom = { λ truths atom. truth_of truths atom };

    fn has(&self, atom: &[u32]) -> bool {
        match self.truths.get(atom) {
            Some(holds) => *holds,
            None => false,
        }
    }
}

impl StateFacts {
    /// The facts of the initial state.
    ///
    /// # Errors
    ///
    /// Want of memory.
    pub fn at_start(alloc: Global, task: &NumberedTask) -> Result<StateFacts, NoMemory>
        ensures { IfOk result (λ facts. (atom : Items ℕ) → truth_of facts atom
            ≡ list_any (bytes_eq atom) (map atom_of task.now.start)) }
    {
        let mut facts = StateFacts {
            truths: IndexMap::new(alloc),
        };
        let start = task.start.items();
        for fact in start {
            let words = words_of(alloc, fact)?;
            facts.note(words, true)?;
        }
        Ok(facts)
    }

    /// The atom is true from now on, or false.
    fn note(&mut self, atom: Vec<u32>, holds: bool) -> Result<(), NoMemory>
        ensures { OnOk result (self.new ≡ with_truth self.old atom.items holds) }
    {
        self.truths.insert(atom, holds)?;
        Ok(())
    }

    /// Notes those of the literals that are true, or else those that are false.
    fn note_all(&mut self, alloc: Global, literals: &[Literal], holds: bool) -> Result<(), NoMemory>
        ensures { OnOk result ((atom : Items ℕ) → truth_of self.new atom
            ≡ noted holds (truth_of self.old) literals.now atom) }
    {
        for literal in literals {
            if is_so(literal, holds) {
                let atom = Vec::from_slice(alloc, literal.atom.items())?;
                self.note(atom, holds)?;
            }
        }
        Ok(())
    }

    /// Does an effect at the objects in the slots: what it deletes becomes false, and then what it
    /// adds becomes true.
    ///
    /// # Errors
    ///
    /// Want of memory; then they are the facts of no state.
    pub fn follow(
        &mut self,
        alloc: Global,
        numbers: &Numbers,
        slots: &[u32],
        effect: &NumberedEffect,
    ) -> Result<(), NoMemory>
        ensures { OnOk result ((atom : Items ℕ) → truth_of self.new atom
            ≡ changed (truth_of self.old)
            (literals_of numbers.now (truth_of self.old) slots.now effect.now) atom) }
    {
        let literals = effect_literals(alloc, numbers, &*self, slots, effect)?;
        self.note_all(alloc, literals.items(), false)?;
        self.note_all(alloc, literals.items(), true)?;
        Ok(())
    }
}
