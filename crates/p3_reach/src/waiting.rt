//! Steps that wait for atoms.

use p3_base::NoMemory;
use p3_formula::{Bits, Form};
use std::alloc::Global;
use std::mem::swap;

/// The first part of a precondition that is an atom which is not set.
#[derive(Clone, Copy)]
pub(crate) struct Missing {
    part: usize,
    atom: usize,
}

/// Which steps wait for which atoms, and which are looked at next. Atoms are by number, steps by
/// place.
#[derive(Drop)]
pub(crate) struct Waiting {
    /// By atom: the step that began to wait for it last.
    last: Vec<Option<usize>>,
    /// By step: the one that waits for the same atom and began before.
    before: Vec<Option<usize>>,
    /// By step: the part of its precondition that it waits for. Those before are no atoms or set.
    parts: Vec<usize>,
    /// The steps that are looked at in this round.
    next: Vec<usize>,
    /// Those that wait for no one atom, and may add something yet.
    rest: Vec<usize>,
}

impl Waiting {
    /// None waits, and none is looked at.
    pub(crate) fn of(alloc: Global, atoms: usize, steps: usize) -> Result<Waiting, NoMemory> {
        Ok(Waiting {
            last: vec![in alloc; None; atoms]?,
            before: vec![in alloc; None; steps]?,
            parts: vec![in alloc; 0; steps]?,
            next: Vec::new(alloc),
            rest: Vec::new(alloc),
        })
    }

    /// Finds what the step at the place misses, from the part on that it waited for.
    pub(crate) fn missing(&self, place: usize, pre: &Form, atoms: &Bits) -> Option<Missing> {
        match self.parts.get(place) {
            None => None,
            Some(from) => missing_in(pre, atoms, *from),
        }
    }

    /// The step at the place waits.
    pub(crate) fn wait(&mut self, place: usize, missing: Missing) {
        let Missing { part, atom } = missing;
        if atom < self.last.len() && place < self.before.len() && place < self.parts.len() {
            self.before[place] = self.last[atom];
            self.last[atom] = Some(place);
            self.parts[place] = part;
        }
    }

    /// The steps that wait for the atom are looked at.
    pub(crate) fn wake(&mut self, atom: usize) -> Result<(), NoMemory> {
        if atom >= self.last.len() {
            return Ok(());
        }
        let mut waits = self.last[atom];
        self.last[atom] = None;
        for _step in 0..self.before.len() {
            match waits {
                None => break,
                Some(place) => {
                    self.next.push(place)?;
                    waits = self.before_of(place);
                }
            }
        }
        Ok(())
    }

    /// Gives the step that waits for the same atom and began before.
    fn before_of(&self, place: usize) -> Option<usize> {
        match self.before.get(place) {
            None => None,
            Some(before) => *before,
        }
    }

    /// The step at the place is looked at in this round.
    pub(crate) fn look_at(&mut self, place: usize) -> Result<(), NoMemory> {
        self.next.push(place)?;
        Ok(())
    }

    /// The step at the place is looked at in the next round.
    pub(crate) fn put_off(&mut self, place: usize) -> Result<(), NoMemory> {
        self.rest.push(place)?;
        Ok(())
    }

    /// Takes the step that is looked at next in this round.
    pub(crate) fn next(&mut self) -> Option<usize> {
        self.next.pop()
    }

    /// Begins a round with the steps that were put off.
    pub(crate) fn begin_round(&mut self) {
        swap(&mut self.next, &mut self.rest);
    }
}

/// Finds what a step misses whose precondition this is, from the part on.
fn missing_in(pre: &Form, atoms: &Bits, from: usize) -> Option<Missing> {
    match pre {
        Form::Atom(atom) => missing_at(atoms, *atom, 0),
        Form::And(parts) => missing_among(parts.items(), atoms, from),
        Form::True | Form::False | Form::Not(_) | Form::Or(_) => None,
    }
}

/// Finds the first part that is an atom which is not set, from the part on.
fn missing_among(parts: &[Form], atoms: &Bits, from: usize) -> Option<Missing> {
    for part in from..parts.len() {
        if let Form::Atom(atom) = &parts[part] {
            let missing = missing_at(atoms, *atom, part);
            if missing.is_some() {
                return missing;
            }
        }
    }
    None
}

/// The part, which is the atom, where that is not set.
fn missing_at(atoms: &Bits, atom: usize, part: usize) -> Option<Missing> {
    if atom < atoms.count() && !atoms.get(atom) {
        Some(Missing { part, atom })
    } else {
        None
    }
}
