//! The nodes of a text.

ghost use Rattle.std.specs.Prelude.{◌≡◌, ◌≤◌, ◌<◌, ◌+◌, ◌∷◌, [], length, IfOk, IfSome, Some, None};
ghost use Rattle.std.specs.Option.{option_map, option_or};
ghost use Rattle.p3_base.specs.declared.refusal.Side.TheVariants.{Written};
ghost use Rattle.p3_task.specs.Expressions.{expression_of_text};
ghost use Rattle.p3_task.specs.Sides.{byte_limit};
ghost use Rattle.p3_task.specs.Tokens.{Open};
ghost use Rattle.p3_task.specs.Refusals.Texts.{long_number};
ghost use Rattle.p3_lexer.specs.Lexing.{token_of};
ghost use Rattle.p3_places.specs.Searches.{side_of};
ghost use Rattle.p3_places.specs.Walks.{place_of, fault_of, Begins, Passes};
ghost use Rattle.p3_outline.specs.Builds.{the_built, only_if, is_done, nothing_built, end_added, word_added, with_token};
ghost use Rattle.p3_outline.specs.Nodes.{expressions_in};
ghost use Rattle.p3_outline.specs.Numbers.{number_refusal};

use crate::numbers::note_long_number;
use crate::view::Node;
use p3_base::{NoMemory, Refusal, Role};
use p3_lexer::{Lexer, Next, is_close, is_open};
use p3_places::FaultSearch;
use std::alloc::Global;

/// A list that is open: the place of its node, and the offset of its `(`.
#[derive(Clone, Copy)]
struct OpenList {
    index: u32,
    at: u32,
}

/// The nodes so far, and the lists that are open, the innermost last. A list that is open has no
/// nodes below it yet.
#[derive(Drop)]
struct Building {
    nodes: Vec<Node>,
    open: Vec<OpenList>,
}

impl Building {
    /// Whether one expression is whole.
    #[tactic(auto, using(crate::proofs::BuildLemmas::none_open, crate::proofs::BuildLemmas::no_node_yet))]
    fn is_done(&self) -> bool
        ensures { result ≡ is_done (the_built self.now) }
    {
        self.open.len() == 0 && self.nodes.len() != 0
    }

    /// Opens a list, where one may come next and the limit allows it.
    #[tactic(auto, using(crate::proofs::BuildLemmas::reversed_length))]
    fn open_list(&mut self, limit: usize, at: u32) -> Result<bool, NoMemory>
        requires few { length self.old.nodes.items ≤ byte_limit Written }
        ensures { IfOk result (λ goes.
            only_if goes (the_built self.new)
            ≡ with_token limit (the_built self.old) (Open at)) }
    {
        if self.is_done() || self.open.len() >= limit {
            return Ok(false);
        }
        let index = self.nodes.len() as u32;
        self.nodes.push(Node::List { at, below: 0 })?;
        self.open.push(OpenList { index, at })?;
        Ok(true)
    }

    /// Closes the innermost list. The nodes behind its own are below it.
    fn close_list(&mut self) -> bool
        requires few { length self.old.nodes.items ≤ byte_limit Written }
        ensures { only_if result (the_built self.new) ≡ end_added (the_built self.old) }
    {
        if self.is_done() {
            return false;
        }
        let Some(OpenList { index, at }) = self.open.pop() else {
            return false;
        };
        let place = index as usize;
        if place < self.nodes.len() {
            let below = (self.nodes.len() - place - 1) as u32;
            self.nodes[place] = Node::List { at, below };
        }
        true
    }

    /// Adds a word, where one may come next.
    fn add_word(&mut self, at: u32, len: u32) -> Result<bool, NoMemory>
        ensures { IfOk result (λ goes.
            only_if goes (the_built self.new) ≡ word_added at len (the_built self.old)) }
    {
        if self.is_done() {
            return Ok(false);
        }
        self.nodes.push(Node::Word { at, len })?;
        Ok(true)
    }
}

/// What was found of the tokens that passed: nodes, the first number too long, the first fault.
#[derive(Drop)]
struct Passed {
    building: Building,
    number: Option<Refusal>,
    faults: FaultSearch,
}

impl Passed {
    /// Stands before the first token of a text.
    fn begin(alloc: Global, role: Role) -> Result<Passed, NoMemory>
        ensures nodes { IfOk result (λ passed. the_built passed.building ≡ nothing_built) }
        ensures number { IfOk result (λ passed. passed.number ≡ None) }
        ensures faults { IfOk result (λ passed. Begins role passed.faults) }
    {
        let building = Building {
            nodes: Vec::new(alloc),
            open: Vec::new(alloc),
        };
        let faults = FaultSearch::begin(alloc, role)?;
        Ok(Passed {
            building,
            number: None,
            faults,
        })
    }

    /// Passes a token, and tells whether it may come next in one expression. It is called for each
    /// token, at one place.
    #[inline(always)]
    #[tactic(auto, using(crate::proofs::BuildLemmas::lowered_length, crate::proofs::NumberLemmas::none_open, crate::proofs::NumberLemmas::none_close))]
    fn pass(&mut self, role: Role, limit: usize, offset: u32, text: &[u8]) -> Result<bool, NoMemory>
        requires few { length self.old.building.nodes.items ≤ byte_limit Written }
        requires short { length text.now ≤ byte_limit Written }
        ensures nodes { IfOk result (λ goes.
            only_if goes (the_built self.new.building)
            ≡ with_token limit (the_built self.old.building) (token_of offset text.now)) }
        ensures number { IfOk result (λ _.
            self.new.number ≡ option_or self.old.number
            (long_number (side_of role) role (token_of offset text.now))) }
        ensures faults { IfOk result (λ _.
            Passes role self.old.faults (token_of offset text.now) self.new.faults) }
    {
        if is_open(text) {
            let goes = self.building.open_list(limit, offset)?;
            self.faults.pass_open(role, offset)?;
            Ok(goes)
        } else if is_close(text) {
            self.faults.pass_close(role, offset);
            Ok(self.building.close_list())
        } else {
            let goes = self.building.add_word(offset, text.len() as u32)?;
            self.faults.pass_word(role, offset, text);
            note_long_number(&mut self.number, role, offset, text);
            Ok(goes)
        }
    }

    /// Gives what was found.
    fn into_nodes(self) -> Nodes
        ensures nodes { result.nodes.items ≡ self.building.nodes.items }
        ensures number { result.number ≡ self.number }
        ensures fault { result.fault ≡ self.faults.found }
    {
        let Passed {
            building,
            number,
            faults,
        } = self;
        let fault = faults.found();
        Nodes {
            nodes: building.nodes,
            number,
            fault,
        }
    }
}

/// The nodes of a text, its first number too long, and its first fault.
#[derive(Drop)]
pub(crate) struct Nodes {
    /// The nodes.
    pub nodes: Vec<Node>,
    /// The refusal of the number.
    pub number: Option<Refusal>,
    /// The refusal of the fault.
    pub fault: Option<Refusal>,
}

/// The nodes of the one expression that a text spells with no list above the limit.
pub(crate) fn build(
    alloc: Global,
    role: Role,
    text: &[u8],
    limit: usize,
) -> Result<Option<Nodes>, NoMemory>
    requires { length text.now ≤ byte_limit Written }
    ensures nodes { IfOk result (λ found.
        option_map (λ built. expressions_in text.now built.nodes.items) found
        ≡ option_map (λ e. e ∷ []) (expression_of_text limit text.now)) }
    ensures number { IfOk result (λ found.
        IfSome found (λ built. built.number ≡ number_refusal role text.now)) }
    ensures fault { IfOk result (λ found.
        IfSome found (λ built. built.fault ≡ fault_of role (place_of role) text.now)) }
{
    let mut passed = Passed::begin(alloc, role)?;
    let mut lexer = Lexer::new(text);
    loop {
        match lexer.next() {
            Next::Token { text: word, offset } => {
                if !passed.pass(role, limit, offset, word)? {
                    return Ok(None);
                }
            }
            Next::End => {
                if !passed.building.is_done() {
                    return Ok(None);
                }
                return Ok(Some(passed.into_nodes()));
            }
            Next::Bad(_) => return Ok(None),
        }
    }
}
