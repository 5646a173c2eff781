//! Forms before a step in place of forms after it.

ghost use Rattle.std.specs.Prelude.{◌≡◌, ◌≤◌, ◌<◌, ◌+◌, ℕ, not, false, length, map, [], Some, None, Ok, All, IfOk};
ghost use Rattle.p3_formula.specs.Forms.{nodes};
ghost use Rattle.p3_formula.specs.Nodes.{IsNodeBelow, form_of, node_form};
ghost use Rattle.p3_formula.specs.Simplified.{constant};
ghost use Rattle.p3_regress.specs.Memory.{answer_of, answer_in, IsRight, Continues, IsNumberBefore, HasAtomsBefore, Extends, AnswersAgain};
ghost use Rattle.p3_regress.specs.Parts.{IndexesParts};
ghost use Rattle.p3_regress.specs.Readers.{AreRising, is_read_at, mentions};
ghost use Rattle.std.specs.List.Sorted.{IsNonDecreasing};
ghost use Rattle.p3_regress.specs.Regressed.{IsTrueBefore, IsUntouched, HasAtomsOfBoth, growth};
ghost use Rattle.p3_regress.specs.Regressed as made;
ghost use Rattle.p3_regress.specs.Sorted.{lent, IsRising};
ghost use Rattle.p3_regress.specs.Turned.{may_turn, IsTurnBefore};

use crate::changed::atom_after;
use crate::forms::form_before;
use crate::memory::Memory;
use crate::often::{Noted, often_changed};
use crate::readers::{PartReader, PartsByAtom, places_read};
use crate::sorted::{by_atom, changes_of};
use crate::turning::{may_turn, may_turn_by, turned};
use p3_base::{List, NoMemory};
use p3_formula::{Change, Effects, Form, Node, Table};
use std::alloc::Global;
use std::marker::Model;

/// A table under the changes of one step: for a number, the one that is true before the step
/// exactly where the given one is true after it. Contracts see the table, the effects and the
/// answers given so far.
#[derive(Drop)]
pub struct Regressed<'e> {
    effects: &'e Effects,
    changes: Vec<&'e Change>,
    noted: Vec<Noted>,
    memory: Memory,
}

impl<'e> Model for Regressed<'e> {
    ghost use Rattle.p3_regress.specs.Memory.{Regression, IsUnder};

    ghost Value = { Regression };

    ghost use Rattle.p3_formula.specs.contracts.form.Form as form;
    ghost use Rattle.std.specs.Coded.{codes};

    ghost coded = { Prim.hlevel (codes, form.the_row.coded) };

    ghost view = { λ all. record {
      table = all.memory.table;
      effects = all.effects.now;
      answers = all.memory.answers.items;
    } };

    ghost invariant = { λ all.
        IsUnder all.effects.now all.changes.items all.noted.items all.memory };
}

impl<'e> Regressed<'e> {
    /// The table under the changes. Nothing is answered yet.
    pub fn open(
        alloc: Global,
        table: Table,
        effects: &'e Effects,
    ) -> Result<Regressed<'e>, NoMemory>
        ensures table { IfOk result (λ all. all.table ≡ table) }
        ensures effects { IfOk result (λ all. all.effects ≡ effects.now) }
        ensures answers { IfOk result (λ all. all.answers ≡ []) }
    {
        let changes = by_atom(alloc, effects.items())?;
        let noted = often_changed(alloc, &changes)?;
        Ok(Regressed {
            effects,
            changes,
            noted,
            memory: Memory {
                alloc,
                table,
                answers: Vec::new(alloc),
            },
        })
    }

    /// The number that is true before the step exactly where the given one is true after it. A
    /// number that was answered is answered alike, and the table is then unchanged.
    pub fn of(&mut self, number: usize) -> Result<usize, NoMemory>
        requires { number < length self.old.table }
        ensures truth { IfOk result (IsNumberBefore self.old self.new number) }
        ensures atoms { IfOk result (HasAtomsBefore self.old self.new number) }
        ensures within { IfOk result (λ before. before < length self.new.table) }
        ensures again { AnswersAgain self.old self.new number result }
        ensures answered { IfOk result (λ before. answer_of self.new.answers number ≡ Some before) }
        // Nodes, effects and answers that are there stay.
        ensures extends { Extends self.old self.new }
    {
        before(&mut self.memory, &self.changes, number)
    }

    /// The form that holds before the step exactly where this one holds after it, in each state
    /// that has this one's atoms.
    pub fn form(&mut self, alloc: Global, form: &Form) -> Result<Form, NoMemory>
        ensures truth { IfOk result (λ before. IsTrueBefore self.old.effects form.now before) }
        ensures untouched { IsUntouched self.old.effects form.now
            → IfOk result (λ before. before ≡ form.now) }
        ensures size { IfOk result (λ before.
            nodes before ≤ nodes form.now + growth self.old.effects form.now) }
        ensures atoms { IfOk result (λ before. HasAtomsOfBoth self.old.effects form.now before) }
        // Nodes, effects and answers that are there stay.
        ensures extends { Extends self.old self.new }
    {
        form_before(alloc, &self.changes, &self.noted, form)
    }

    /// Whether the step may turn the form true, or else false. It takes no memory.
    pub fn may_turn(&self, form: &Form, up: bool) -> bool
        ensures { result ≡ may_turn self.now.effects up form.now }
    {
        may_turn(&self.changes, form, up)
    }

    /// The form that tells before the step where it turns this one true, or else false, in each
    /// state that has this one's atoms. It is a constant where the step cannot.
    pub fn turned(&mut self, alloc: Global, form: &Form, up: bool) -> Result<Form, NoMemory>
        ensures truth { IfOk result (λ before. IsTurnBefore up self.old.effects form.now before) }
        ensures still { may_turn self.old.effects up form.now ≡ false
            → IfOk result (λ before. before ≡ constant (not up)) }
        ensures size { IfOk result (λ before.
            nodes before ≤ nodes form.now + growth self.old.effects form.now) }
        ensures atoms { IfOk result (λ before. HasAtomsOfBoth self.old.effects form.now before) }
        // Nodes, effects and answers that are there stay.
        ensures extends { Extends self.old self.new }
    {
        self.turned_by(alloc, form, up, &PartsByAtom::none(alloc))
    }

    /// Whether the step may turn the form true, or else false, where its parts are looked up by
    /// atom.
    pub fn may_turn_by(
        &self,
        alloc: Global,
        form: &Form,
        up: bool,
        by_atom: &PartsByAtom,
    ) -> Result<bool, NoMemory>
        requires { IndexesParts form.now by_atom.now }
        ensures { IfOk result (λ may. may ≡ may_turn self.now.effects up form.now) }
    {
        may_turn_by(alloc, &self.changes, form, up, by_atom)
    }

    /// Makes what `turned` makes of the form, whose parts are looked up by atom: of a conjunction
    /// that may turn false, and of a disjunction that may turn true, it looks only at the parts
    /// that the step touches.
    pub fn turned_by(
        &mut self,
        alloc: Global,
        form: &Form,
        up: bool,
        by_atom: &PartsByAtom,
    ) -> Result<Form, NoMemory>
        requires { IndexesParts form.now by_atom.now }
        ensures truth { IfOk result (λ before. IsTurnBefore up self.old.effects form.now before) }
        ensures still { may_turn self.old.effects up form.now ≡ false
            → IfOk result (λ before. before ≡ constant (not up)) }
        ensures size { IfOk result (λ before.
            nodes before ≤ nodes form.now + growth self.old.effects form.now) }
        ensures atoms { IfOk result (λ before. HasAtomsOfBoth self.old.effects form.now before) }
        // Nodes, effects and answers that are there stay.
        ensures extends { Extends self.old self.new }
    {
        turned(alloc, &self.changes, &self.noted, form, up, by_atom)
    }

    /// The places of the readers of an atom that a change of the step names, by rising place. One
    /// may stand several times.
    pub fn places_read(&self, alloc: Global, readers: &[PartReader]) -> Result<Vec<usize>, NoMemory>
        requires { AreRising readers.now }
        ensures read { IfOk result (λ places. (place : ℕ)
            → mentions place places.items ≡ is_read_at self.now.effects readers.now place) }
        ensures rising { IfOk result (λ places. IsNonDecreasing places.items) }
    {
        places_read(alloc, readers, &self.changes)
    }

    /// The table.
    pub fn table(&self) -> &Table
        ensures { result.now ≡ self.now.table }
    {
        &self.memory.table
    }
}

/// The form that holds before a step exactly where this one holds after it, in each state that
/// has this one's atoms.
///
/// An atom becomes the disjunction of the conditions that set it and of its staying set, and an
/// atom that no change names stays. The changes are sorted once, each atom's are found by halving,
/// and what many changes make of one atom is made once, so that the time is near-linear in the form,
/// the changes and what is made.
pub fn regress(alloc: Global, form: &Form, effects: &Effects) -> Result<Form, NoMemory>
    ensures truth { IfOk result (λ before. IsTrueBefore effects.now form.now before) }
    ensures untouched { IsUntouched effects.now form.now
        → IfOk result (λ before. before ≡ form.now) }
    ensures size { IfOk result (λ before.
        nodes before ≤ nodes form.now + growth effects.now form.now) }
    ensures atoms { IfOk result (λ before. HasAtomsOfBoth effects.now form.now before) }
{
    let mut regressed = Regressed::open(alloc, Table::new(alloc), effects)?;
    regressed.form(alloc, form)
}

/// The number before the changes in place of this one after them, as it was answered or else as it
/// is made.
#[cycle(before)]
fn before(memory: &mut Memory, changes: &[&Change], number: usize) -> Result<usize, NoMemory>
    requires within { number < length memory.old.table }
    requires rising { IsRising changes.now }
    requires right { IsRight (lent changes.now) memory.old }
    ensures goes_on { Continues (lent changes.now) memory.old memory.new }
    ensures answered { IfOk result (λ before. answer_in memory.new number ≡ Some before) }
    ensures again { (before : ℕ) → answer_in memory.old number ≡ Some before
        → (result ≡ Ok before) × (memory.new ≡ memory.old) }
{
    match memory.answer(number) {
        Some(before) => Ok(before),
        None => answered(memory, changes, number),
    }
}

/// The number before the changes, made and noted.
#[cycle(before)]
fn answered(memory: &mut Memory, changes: &[&Change], number: usize) -> Result<usize, NoMemory>
    requires within { number < length memory.old.table }
    requires new { answer_in memory.old number ≡ None }
    requires rising { IsRising changes.now }
    requires right { IsRight (lent changes.now) memory.old }
    ensures goes_on { Continues (lent changes.now) memory.old memory.new }
    ensures answered { IfOk result (λ before. answer_in memory.new number ≡ Some before) }
{
    let node = memory.node(number)?;
    let before = node_before(memory, changes, number, node)?;
    memory.note(number, before)?;
    Ok(before)
}

/// The number before the changes in place of a node after them, whose numbers are below the count.
#[cycle(before)]
fn node_before(
    memory: &mut Memory,
    changes: &[&Change],
    count: usize,
    node: Node,
) -> Result<usize, NoMemory>
    requires within { count ≤ length memory.old.table }
    requires parts { IsNodeBelow count node }
    requires rising { IsRising changes.now }
    requires right { IsRight (lent changes.now) memory.old }
    ensures goes_on { Continues (lent changes.now) memory.old memory.new }
    ensures within { IfOk result (λ before. before < length memory.new.table) }
    ensures stands { IfOk result (λ before. form_of memory.new.table before
        ≡ made.regressed (lent changes.now) (node_form (form_of memory.old.table) node)) }
{
    match node {
        Node::True => memory.add(Node::True),
        Node::False => memory.add(Node::False),
        Node::Atom(atom) => {
            let form = atom_after(memory.alloc, changes_of(changes, atom), atom)?;
            memory.of(&form)
        }
        Node::Not(part) => {
            let part = before(memory, changes, part)?;
            memory.add(Node::Not(part))
        }
        Node::And(parts) => {
            let parts = all_before(memory, changes, count, parts.items())?;
            memory.add(Node::And(parts))
        }
        Node::Or(parts) => {
            let parts = all_before(memory, changes, count, parts.items())?;
            memory.add(Node::Or(parts))
        }
    }
}

/// The numbers before the changes in place of these after them.
#[cycle(before)]
fn all_before(
    memory: &mut Memory,
    changes: &[&Change],
    count: usize,
    numbers: &[usize],
) -> Result<List<usize>, NoMemory>
    requires within { count ≤ length memory.old.table }
    requires parts { All (λ number. number < count) numbers.now }
    requires rising { IsRising changes.now }
    requires right { IsRight (lent changes.now) memory.old }
    ensures goes_on { Continues (lent changes.now) memory.old memory.new }
    ensures below { IfOk result (λ befores.
        All (λ before. before < length memory.new.table) befores) }
    ensures stand { IfOk result (λ befores. map (form_of memory.new.table) befores
        ≡ map (made.regressed (lent changes.now)) (map (form_of memory.old.table) numbers.now)) }
{
    let mut befores = List::new(memory.alloc);
    for number in numbers {
        befores.push(before(memory, changes, *number)?)?;
    }
    Ok(befores)
}
