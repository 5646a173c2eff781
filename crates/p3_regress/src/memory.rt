//! A table with the answers given for its numbers.

ghost use Rattle.std.specs.Prelude.{◌≡◌, ◌≢◌, ◌<◌, ℕ, length, vec_len, Some, IfOk, OnOk, OnErr};
ghost use Rattle.p3_formula.specs.Forms.{IsBelow};
ghost use Rattle.p3_formula.specs.Nodes.{IsNodeBelow, Grows, form_of, node_form};
ghost use Rattle.p3_regress.specs.Memory.{answer_of, answer_in};

use p3_base::{List, NoMemory};
use p3_formula::{Form, Node, Table};
use std::alloc::Global;

/// A table with the answers given for its numbers, by number.
#[derive(Drop)]
pub(crate) struct Memory {
    pub(crate) alloc: Global,
    pub(crate) table: Table,
    pub(crate) answers: Vec<Option<usize>>,
}

impl Memory {
    /// The answer that the number got.
    pub(crate) fn answer(&self, number: usize) -> Option<usize>
        ensures { result ≡ answer_in self.now number }
    {
        if number < self.answers.len() {
            self.answers[number]
        } else {
            None
        }
    }

    /// Notes the answer to a number. Other answers stay.
    pub(crate) fn note(&mut self, number: usize, before: usize) -> Result<(), NoMemory>
        ensures table { self.new.table ≡ self.old.table }
        ensures others { (other : ℕ) → other ≢ number
            → answer_in self.new other ≡ answer_in self.old other }
        ensures noted { OnOk result (answer_in self.new number ≡ Some before) }
        ensures err { OnErr result (answer_in self.new number ≡ answer_in self.old number) }
    {
        put(&mut self.answers, number, before)
    }

    /// The node of the number, once more.
    pub(crate) fn node(&self, number: usize) -> Result<Node, NoMemory>
        requires { number < length self.now.table }
        ensures below { IfOk result (IsNodeBelow number) }
        ensures stands { IfOk result (λ node.
            form_of self.now.table number ≡ node_form (form_of self.now.table) node) }
    {
        match self.table.node(number) {
            Some(node) => copied(self.alloc, node),
            None => Ok(Node::False),
        }
    }

    /// The number of the node.
    pub(crate) fn add(&mut self, node: Node) -> Result<usize, NoMemory>
        requires { IsNodeBelow (length self.old.table) node }
        ensures grows { Grows self.old.table self.new.table }
        ensures answers { self.new.answers ≡ self.old.answers }
        ensures within { IfOk result (λ number. number < length self.new.table) }
        ensures stands { IfOk result (λ number.
            form_of self.new.table number ≡ node_form (form_of self.old.table) node) }
    {
        self.table.add(node)
    }

    /// A number that stands for the form.
    pub(crate) fn of(&mut self, form: &Form) -> Result<usize, NoMemory>
        ensures grows { Grows self.old.table self.new.table }
        ensures answers { self.new.answers ≡ self.old.answers }
        ensures within { IfOk result (λ number. number < length self.new.table) }
        ensures stands { IfOk result (λ number. form_of self.new.table number ≡ form.now) }
    {
        self.table.of(form)
    }
}

/// Notes the answer to a number. Other answers stay.
fn put(answers: &mut Vec<Option<usize>>, number: usize, before: usize) -> Result<(), NoMemory>
    ensures others { (other : ℕ) → other ≢ number
        → answer_of answers.new.items other ≡ answer_of answers.old.items other }
    ensures noted { OnOk result (answer_of answers.new.items number ≡ Some before) }
    ensures err { OnErr result
        (answer_of answers.new.items number ≡ answer_of answers.old.items number) }
{
    widen(answers, number)?;
    answers[number] = Some(before);
    Ok(())
}

/// Makes room for an answer.
#[tactic(auto, using(crate::proofs::MemoryLemmas::wider))]
fn widen(answers: &mut Vec<Option<usize>>, number: usize) -> Result<(), NoMemory>
    ensures room { OnOk result (number < vec_len answers.new) }
    ensures same { (other : ℕ)
        → answer_of answers.new.items other ≡ answer_of answers.old.items other }
{
    while answers.len() <= number {
        answers.push(None)?;
    }
    Ok(())
}

/// The same node once more.
fn copied(alloc: Global, node: &Node) -> Result<Node, NoMemory>
    ensures { IfOk result (λ copy. copy ≡ node.now) }
{
    match node {
        Node::True => Ok(Node::True),
        Node::False => Ok(Node::False),
        Node::Atom(atom) => Ok(Node::Atom(*atom)),
        Node::Not(part) => Ok(Node::Not(*part)),
        Node::And(parts) => Ok(Node::And(numbers_copied(alloc, parts.items())?)),
        Node::Or(parts) => Ok(Node::Or(numbers_copied(alloc, parts.items())?)),
    }
}

/// The same numbers once more.
fn numbers_copied(alloc: Global, numbers: &[usize]) -> Result<List<usize>, NoMemory>
    ensures { IfOk result (λ copy. copy ≡ numbers.now) }
{
    Ok(List::from(Vec::from_slice(alloc, numbers)?))
}
