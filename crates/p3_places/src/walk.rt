//! The walk over a text.

ghost use Rattle.std.specs.Prelude.{◌≡◌, ◌≤◌, ◌∷◌, [], length, IfOk};
ghost use Rattle.std.specs.Str.{str_to_ascii_lowercase};
ghost use Rattle.p3_base.specs.declared.refusal.Code.TheVariants.{Malformed};
ghost use Rattle.p3_base.specs.declared.refusal.Side.TheVariants.{Written};
ghost use Rattle.p3_task.specs.PlanTexts as marks;
ghost use Rattle.p3_task.specs.Refusals.Places.{refusal_at};
ghost use Rattle.p3_task.specs.Sides.{byte_limit};
ghost use Rattle.p3_task.specs.Tokens.{Open, Close, Word};
ghost use Rattle.p3_places.specs.Machine.{step};
ghost use Rattle.p3_places.specs.Places.{grammar_table, start};
ghost use Rattle.p3_places.specs.Walks.{the_stack, only_if, place_of, Begins, Passes};

use crate::state::{Place, Rest, Slot, State};
use crate::step::{is_final, on_open, pass_list, pass_word};
use p3_base::{Code, NoMemory, Pos, Refusal, Role};
use std::alloc::Global;

/// The lists that are open, the innermost last. They stand in memory, so that a token moves no state.
#[derive(Drop)]
struct PlacesWalk {
    open: Vec<State>,
}

impl PlacesWalk {
    /// Stands before the first token of a text that is to stand at the place.
    fn begun(alloc: Global, place: Place) -> Result<PlacesWalk, NoMemory>
        ensures { IfOk result (λ walk. the_stack walk ≡ start place ∷ []) }
    {
        let mut open = Vec::new(alloc);
        open.push(State::Rest(Rest::One(Slot::List(place))))?;
        Ok(PlacesWalk { open })
    }

    /// Passes a word, where it may stand here.
    fn pass_word(&mut self, text: &[u8]) -> bool
        ensures { only_if result (the_stack self.new)
            ≡ step grammar_table (the_stack self.old)
            (marks.Names (str_to_ascii_lowercase text.now)) }
    {
        let count = self.open.len();
        if count == 0 {
            return false;
        }
        pass_word(&mut self.open[count - 1], text)
    }

    /// Passes a `(`, where a list may open.
    fn open_list(&mut self) -> Result<bool, NoMemory>
        ensures { IfOk result (λ goes.
            only_if goes (the_stack self.new)
            ≡ step grammar_table (the_stack self.old) marks.Opens) }
    {
        let count = self.open.len();
        if count == 0 {
            return Ok(false);
        }
        let Some(first) = on_open(&self.open[count - 1]) else {
            return Ok(false);
        };
        self.open.push(first)?;
        Ok(true)
    }

    /// Passes a `)`, where the list may end.
    fn close_list(&mut self) -> bool
        ensures { only_if result (the_stack self.new)
            ≡ step grammar_table (the_stack self.old) marks.Closes }
    {
        let Some(last) = self.open.pop() else {
            return false;
        };
        let count = self.open.len();
        if count == 0 || !is_final(&last) {
            return false;
        }
        pass_list(&mut self.open[count - 1], &last);
        true
    }
}

/// Where the whole text of a file stands. A plan has no place here.
fn place_of(role: Role) -> Place
    ensures { result ≡ place_of role }
{
    match role {
        Role::Domain | Role::WrittenDomain => Place::Domain,
        Role::Problem | Role::WrittenProblem | Role::Plan => Place::Problem,
    }
}

/// The search for the first token of a text that may not stand where it does, as tokens pass.
#[derive(Drop)]
pub struct FaultSearch {
    walk: PlacesWalk,
    found: Option<Refusal>,
}

impl FaultSearch {
    /// Stands before the first token of a text of the role.
    pub fn begin(alloc: Global, role: Role) -> Result<FaultSearch, NoMemory>
        ensures begins { IfOk result (λ search. Begins role search) }
    {
        let walk = PlacesWalk::begun(alloc, place_of(role))?;
        Ok(FaultSearch { walk, found: None })
    }

    /// Passes a `(`.
    pub fn pass_open(&mut self, role: Role, offset: u32) -> Result<(), NoMemory>
        ensures passes { IfOk result (λ _. Passes role self.old (Open offset) self.new) }
    {
        match self.found {
            Some(_) => Ok(()),
            None => {
                if !self.walk.open_list()? {
                    self.found = Some(fault_at(role, offset, 1));
                }
                Ok(())
            }
        }
    }

    /// Passes a `)`.
    pub fn pass_close(&mut self, role: Role, offset: u32)
        ensures passes { Passes role self.old (Close offset) self.new }
    {
        match self.found {
            Some(_) => {}
            None => {
                if !self.walk.close_list() {
                    self.found = Some(fault_at(role, offset, 1));
                }
            }
        }
    }

    /// Passes a word.
    pub fn pass_word(&mut self, role: Role, offset: u32, text: &[u8])
        requires short { length text.now ≤ byte_limit Written }
        ensures passes { Passes role self.old
            (Word offset (str_to_ascii_lowercase text.now)) self.new }
    {
        match self.found {
            Some(_) => {}
            None => {
                if !self.walk.pass_word(text) {
                    self.found = Some(fault_at(role, offset, text.len() as u32));
                }
            }
        }
    }

    /// The fault that was found.
    pub fn found(&self) -> Option<Refusal>
        ensures found { result ≡ self.now.found }
    {
        self.found
    }
}

/// The refusal of a token that may not stand where it does.
fn fault_at(role: Role, offset: u32, len: u32) -> Refusal
    ensures { result ≡ refusal_at Malformed role offset len }
{
    Refusal {
        code: Code::Malformed,
        pos: Pos { role, offset },
        len,
    }
}
