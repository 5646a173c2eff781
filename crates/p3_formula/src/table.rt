//! Formulas as numbered nodes.

ghost use Rattle.std.specs.Prelude.{◌≡◌, ◌⊎◌, ◌<◌, ◌≤◌, [], ◌∷◌, ◌++◌, length, map, slice_get, IsSome, All, OnOk, OnErr, IfOk, IfSome, ◌↔◌};
ghost use Rattle.std.specs.Option.{option_copied};
ghost use Rattle.std.specs.List.{list_any, list_all};
ghost use Rattle.p3_formula.specs.Forms.{truth as truth_of_form, IsBelow, AreBelow};
ghost use Rattle.p3_formula.specs.Nodes.{Grows, ArePlaced, AreDistinct, FindsNode, PutsLast, HasNumber, IsNodeBelow, form_of, node_form};

use crate::{Bits, Form, Node};
use indexmap::IndexSet;
use p3_base::{Boxed, List, NoMemory};
use std::alloc::Global;
use std::marker::Model;

/// Nodes in the order in which they came. No two are equal, and a node's numbers are smaller than
/// its own.
#[derive(Drop)]
pub struct Table {
    alloc: Global,
    nodes: IndexSet<Node>,
}

impl Model for Table {
    ghost use Rattle.std.specs.Prelude.{List};
    ghost use Rattle.p3_formula.specs.declared.node.Node.{Node};
    ghost use Rattle.p3_formula.specs.Nodes.{ArePlaced};

    ghost Value = { List Node };

    ghost view = { λ table. table.nodes.keys };

    ghost invariant = { λ table. ArePlaced table.nodes.keys };
}

impl Table {
    /// No node.
    #[tactic(auto, using(crate::proofs::NodeLemmas::table_laws))]
    pub fn new(alloc: Global) -> Table
        ensures { result ≡ [] }
    {
        Table {
            alloc,
            nodes: IndexSet::new(alloc),
        }
    }

    /// How many nodes there are. No two are equal, and each one's numbers are smaller than its own.
    #[tactic(auto, using(crate::proofs::NodeLemmas::form_laws))]
    pub fn len(&self) -> usize
        ensures value { result ≡ length self.now }
        ensures distinct { AreDistinct self.now }
        ensures placed { ArePlaced self.now }
    {
        self.nodes.len()
    }

    /// The node of the number, where there is one.
    #[tactic(auto, using(crate::proofs::NodeLemmas::form_laws))]
    pub fn node(&self, number: usize) -> Option<&Node>
        ensures value { option_copied result ≡ slice_get self.now number }
        ensures within { IsSome result ↔ (number < length self.now) }
        // Its numbers are smaller, and its form is made of theirs.
        ensures below { IfSome result (λ node. IsNodeBelow number node.now) }
        ensures stands { IfSome result (λ node.
            form_of self.now number ≡ node_form (form_of self.now) node.now) }
    {
        self.nodes.get_index(number)
    }

    /// The number of the node: that which it has, or else the next one.
    #[tactic(auto, using(crate::proofs::NodeLemmas::table_laws))]
    fn insert(&mut self, node: Node) -> Result<usize, NoMemory>
        requires { IsNodeBelow (length self.old) node }
        ensures grown { OnOk result ((self.new ≡ self.old) ⊎ (self.new ≡ self.old ++ node ∷ [])) }
        ensures stored { IfOk result (HasNumber self.new node) }
        ensures within { IfOk result (λ number. number < length self.new) }
        ensures placed { ArePlaced self.new }
        ensures distinct { OnOk result (AreDistinct self.new) }
        ensures err { OnErr result (self.new ≡ self.old) }
    {
        let (number, _) = self.nodes.insert_full(node)?;
        Ok(number)
    }

    /// The number of the node. A node that is there keeps its number, and a new one goes last.
    #[tactic(auto, using(crate::proofs::NodeLemmas::add_laws))]
    pub fn add(&mut self, node: Node) -> Result<usize, NoMemory>
        requires { IsNodeBelow (length self.old) node }
        ensures found { IfOk result (FindsNode self.old self.new node) }
        ensures last { IfOk result (PutsLast self.old self.new node) }
        ensures stored { IfOk result (HasNumber self.new node) }
        ensures within { IfOk result (λ number. number < length self.new) }
        // All others keep their numbers, and what those stand for.
        ensures grows { Grows self.old self.new }
        ensures stands { IfOk result (λ number.
            form_of self.new number ≡ node_form (form_of self.old) node) }
        ensures err { OnErr result (self.new ≡ self.old) }
    {
        self.insert(node)
    }

    /// A number that stands for the form. Those that are there keep their nodes.
    #[cycle(enter)]
    #[tactic(auto, using(crate::proofs::NodeLemmas::enter_laws))]
    pub fn of(&mut self, form: &Form) -> Result<usize, NoMemory>
        ensures grows { Grows self.old self.new }
        ensures within { IfOk result (λ number. number < length self.new) }
        ensures stands { IfOk result (λ number. form_of self.new number ≡ form.now) }
    {
        let node = self.node_of(form)?;
        self.add(node)
    }

    /// A node that stands for the form.
    #[cycle(enter)]
    #[tactic(auto, using(crate::proofs::NodeLemmas::enter_laws))]
    fn node_of(&mut self, form: &Form) -> Result<Node, NoMemory>
        ensures grows { Grows self.old self.new }
        ensures below { IfOk result (λ node. IsNodeBelow (length self.new) node) }
        ensures stands { IfOk result (λ node. node_form (form_of self.new) node ≡ form.now) }
    {
        match form {
            Form::True => Ok(Node::True),
            Form::False => Ok(Node::False),
            Form::Atom(atom) => Ok(Node::Atom(*atom)),
            Form::Not(part) => Ok(Node::Not(self.of(part.get())?)),
            Form::And(parts) => Ok(Node::And(self.all_of(parts.items())?)),
            Form::Or(parts) => Ok(Node::Or(self.all_of(parts.items())?)),
        }
    }

    /// Numbers that stand for the forms.
    #[cycle(enter)]
    #[tactic(auto, using(crate::proofs::NodeLemmas::enter_laws))]
    fn all_of(&mut self, forms: &[Form]) -> Result<List<usize>, NoMemory>
        ensures grows { Grows self.old self.new }
        ensures below { IfOk result (λ numbers. All (λ number. number < length self.new) numbers) }
        ensures stands { IfOk result (λ numbers. map (form_of self.new) numbers ≡ forms.now) }
    {
        let mut numbers = List::from(Vec::with_capacity(self.alloc, forms.len())?);
        for form in forms {
            numbers.push(self.of(form)?)?;
        }
        Ok(numbers)
    }

    /// Whether the number's form holds in the state. It takes no memory.
    #[cycle(truth)]
    pub fn truth(&self, number: usize, state: &Bits) -> bool
        requires within { number < length self.now }
        requires below { IsBelow (length state.now) (form_of self.now number) }
        ensures { result ≡ truth_of_form state.now (form_of self.now number) }
    {
        match self.node(number) {
            Some(node) => self.node_truth(number, node, state),
            None => false,
        }
    }

    /// Whether the node's form holds in the state, where its numbers are below the count.
    #[cycle(truth)]
    #[tactic(auto, using(crate::proofs::FormLemmas::truth_laws, crate::proofs::FormLemmas::below_laws))]
    fn node_truth(&self, count: usize, node: &Node, state: &Bits) -> bool
        requires within { count ≤ length self.now }
        requires parts { IsNodeBelow count node.now }
        requires below { IsBelow (length state.now) (node_form (form_of self.now) node.now) }
        ensures { result ≡ truth_of_form state.now (node_form (form_of self.now) node.now) }
    {
        match node {
            Node::True => true,
            Node::False => false,
            Node::Atom(atom) => state.get(*atom),
            Node::Not(part) => !self.truth(*part, state),
            Node::And(parts) => self.all_hold(count, parts.items(), state),
            Node::Or(parts) => self.some_holds(count, parts.items(), state),
        }
    }

    /// Whether every number's form holds.
    #[cycle(truth)]
    fn all_hold(&self, count: usize, numbers: &[usize], state: &Bits) -> bool
        requires within { count ≤ length self.now }
        requires parts { All (λ number. number < count) numbers.now }
        requires below { AreBelow (length state.now) (map (form_of self.now) numbers.now) }
        ensures { result ≡ list_all (truth_of_form state.now) (map (form_of self.now) numbers.now) }
    {
        for number in numbers {
            if !self.truth(*number, state) {
                return false;
            }
        }
        true
    }

    /// Whether some number's form holds.
    #[cycle(truth)]
    fn some_holds(&self, count: usize, numbers: &[usize], state: &Bits) -> bool
        requires within { count ≤ length self.now }
        requires parts { All (λ number. number < count) numbers.now }
        requires below { AreBelow (length state.now) (map (form_of self.now) numbers.now) }
        ensures { result ≡ list_any (truth_of_form state.now) (map (form_of self.now) numbers.now) }
    {
        for number in numbers {
            if self.truth(*number, state) {
                return true;
            }
        }
        false
    }

    /// The form that the number stands for.
    #[cycle(form)]
    pub fn form(&self, alloc: Global, number: usize) -> Result<Form, NoMemory>
        requires { number < length self.now }
        ensures { IfOk result (λ form. form ≡ form_of self.now number) }
    {
        match self.node(number) {
            Some(node) => self.node_form(alloc, number, node),
            None => Ok(Form::False),
        }
    }

    /// The form of the node, whose numbers are below the count.
    #[cycle(form)]
    fn node_form(&self, alloc: Global, count: usize, node: &Node) -> Result<Form, NoMemory>
        requires within { count ≤ length self.now }
        requires parts { IsNodeBelow count node.now }
        ensures { IfOk result (λ form. form ≡ node_form (form_of self.now) node.now) }
    {
        match node {
            Node::True => Ok(Form::True),
            Node::False => Ok(Form::False),
            Node::Atom(atom) => Ok(Form::Atom(*atom)),
            Node::Not(part) => Ok(Form::Not(Boxed::new(alloc, self.form(alloc, *part)?)?)),
            Node::And(parts) => Ok(Form::And(self.all_forms(alloc, count, parts.items())?)),
            Node::Or(parts) => Ok(Form::Or(self.all_forms(alloc, count, parts.items())?)),
        }
    }

    /// The forms that the numbers stand for.
    #[cycle(form)]
    fn all_forms(
        &self,
        alloc: Global,
        count: usize,
        numbers: &[usize],
    ) -> Result<List<Form>, NoMemory>
        requires within { count ≤ length self.now }
        requires parts { All (λ number. number < count) numbers.now }
        ensures { IfOk result (λ forms. forms ≡ map (form_of self.now) numbers.now) }
    {
        let mut forms = Vec::with_capacity(alloc, numbers.len())?;
        for number in numbers {
            forms.push(self.form(alloc, *number)?)?;
        }
        Ok(List::from(forms))
    }
}
