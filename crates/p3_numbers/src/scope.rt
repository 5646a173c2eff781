//! The variables in scope, found in the order of their names.

ghost use Rattle.std.specs.Prelude.{◌≡◌, ◌<◌, ◌-◌, ◌++◌, ◌∷◌, [], length, take, drop, reverse, slice_get, Some, OnOk, OnErr};
ghost use Rattle.p3_task.specs.Uses.{scope_of};
ghost use Rattle.p3_task.specs.Slots.{slot_of, words_of};
ghost use Rattle.p3_numbers.specs.Scopes.{scope_seen};

use p3_base::{Name, NoMemory};
use p3_task::Typed;
use std::alloc::Global;
use std::collections::BTreeMap;
use std::marker::Model;

/// A variable in scope.
#[derive(Clone, Copy)]
struct Entry<'t> {
    /// The variable.
    variable: &'t Typed,
    /// The slot of the variable that it hides.
    hidden: Option<usize>,
}

/// The variables in scope, the outermost first. A variable's slot is its place.
#[derive(Drop)]
pub struct Scope<'t> {
    entries: Vec<Entry<'t>>,
    /// The slot of the innermost variable of a name.
    newest: BTreeMap<&'t [u8], usize>,
}

impl<'t> Model for Scope<'t> {
    ghost use Rattle.std.specs.Prelude.{List, map};
    ghost use Rattle.std.specs.BTreeMap.{get};
    ghost use Rattle.std.specs.Cmp.Lexicographic.{slice_cmp};
    ghost use Rattle.std.specs.Ordering.{nat_cmp};
    ghost use Rattle.p3_task.specs.declared.term.Typed.{Typed};
    ghost use Rattle.p3_numbers.specs.Scopes.{Indexed};

    ghost Value = { List Typed };

    ghost view = { λ scope. map (λ entry. entry.variable.now) scope.entries.items };

    ghost invariant = { λ scope. Indexed
        (λ entry. entry.variable.now)
        (λ entry. entry.hidden)
        scope.entries.items
        (get (λ x y. slice_cmp nat_cmp x.now y.now) scope.newest) };
}

impl<'t> Scope<'t> {
    /// No variable.
    pub fn new(alloc: Global) -> Scope<'t>
        ensures { result ≡ [] }
    {
        Scope {
            entries: Vec::new(alloc),
            newest: BTreeMap::new(alloc),
        }
    }

    /// How many variables there are.
    pub fn len(&self) -> usize
        ensures { result ≡ length self.now }
    {
        self.entries.len()
    }

    /// The slot of the innermost variable of that name.
    pub fn find(&self, name: &Name) -> Option<usize>
        ensures { result ≡ slot_of (words_of self.now) name.now }
    {
        self.newest.get(name.bytes()).copied()
    }

    /// The variable of a slot.
    pub fn at(&self, slot: usize) -> &'t Typed
        requires { slot < length self.now }
        ensures { slice_get self.now slot ≡ Some result.now }
    {
        self.entries[slot].variable
    }

    /// One variable more, the innermost.
    fn push(&mut self, variable: &'t Typed) -> Result<(), NoMemory>
        ensures ok { OnOk result (self.new ≡ self.old ++ variable.now ∷ []) }
        ensures err { OnErr result (self.new ≡ self.old) }
    {
        let name = variable.name.name.bytes();
        let place = self.entries.len();
        let hidden = self.newest.get(name).copied();
        self.entries.push(Entry { variable, hidden })?;
        match self.newest.insert(name, place) {
            Ok(_) => Ok(()),
            Err(_) => {
                self.entries.pop();
                Err(NoMemory)
            }
        }
    }

    /// Without the innermost variable.
    fn pop(&mut self)
        ensures { self.new ≡ take (length self.old - 1) self.old }
    {
        if let Some(entry) = self.entries.pop() {
            let name = entry.variable.name.name.bytes();
            match entry.hidden {
                Some(place) => {
                    if let Some(slot) = self.newest.get_mut(name) {
                        *slot = place;
                    }
                }
                None => {
                    self.newest.remove(name);
                }
            }
        }
    }

    /// The first variables alone.
    pub fn truncate(&mut self, len: usize)
        ensures { self.new ≡ take len self.old }
    {
        while len < self.len() {
            self.pop();
        }
    }

    /// The variables of a list as the innermost, the last of them the innermost.
    pub fn bind(&mut self, variables: &'t [Typed]) -> Result<(), NoMemory>
        ensures { OnOk result (self.new ≡ self.old ++ variables.now) }
    {
        for variable in variables {
            self.push(variable)?;
        }
        Ok(())
    }

    /// The variables of a list as the innermost, the first of them the innermost.
    #[tactic(auto, using(crate::proofs::ScopeLemmas::enter_laws))]
    pub fn enter(&mut self, variables: &'t [Typed]) -> Result<(), NoMemory>
        ensures ok { OnOk result (self.new ≡ self.old ++ reverse variables.now) }
        ensures seen { OnOk result
            (scope_seen self.new ≡ scope_of variables.now ++ scope_seen self.old) }
        ensures back { OnOk result (take (length self.old) self.new ≡ self.old) }
    {
        for k in 0..variables.len() {
            self.push(&variables[variables.len() - 1 - k])?;
        }
        Ok(())
    }

    /// Without so many of the innermost variables.
    #[tactic(auto, using(crate::proofs::ScopeLemmas::leave_laws))]
    pub fn leave(&mut self, count: usize)
        ensures { scope_seen self.new ≡ drop count (scope_seen self.old) }
    {
        self.truncate(self.len().saturating_sub(count));
    }
}
