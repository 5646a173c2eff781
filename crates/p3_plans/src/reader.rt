//! The steps of a plan text, one after another.

ghost use Rattle.std.specs.Prelude.{◌≡◌, ◌≤◌, ◌<◌, ◌+◌, ◌-◌, ℕ, List, [], ◌∷◌, take, drop, length, None, IfSome};
ghost use Rattle.p3_lexer.specs.Lexing as lexing;
ghost use Rattle.p3_lexer.specs.StepWords.{IsPartOf, IsWordAt};
ghost use Rattle.p3_task.specs.PlanTexts.{IsPlanText, Outside, end_offence};
ghost use Rattle.p3_task.specs.declared.task.Step.{Step};
ghost use Rattle.p3_task.specs.Sides.{plan_byte_limit};
ghost use Rattle.p3_plans.specs.Befores.{the_before};
ghost use Rattle.p3_plans.specs.Steps.{Left, left, parts, nothing, with_next, IsBehindGap, Takes, Rests, Ends, stopped_by};

use crate::before::{Before, advanced, refusal};
use p3_base::{Code, Refusal};
use p3_lexer::{Lexer, Next};
use std::marker::Model;

/// A step as it stands in the text.
#[derive(Clone, Copy)]
pub struct PlanStep<'a> {
    /// Its bytes, from `(` to `)`.
    pub text: &'a [u8],
    /// Where they begin.
    pub offset: u32,
}

impl<'a> PlanStep<'a> {
    /// Finds a word of the step: its action's name at place 0, then the arguments, as slices of the
    /// text. It takes no memory.
    pub fn word(&self, place: u32) -> Option<&'a [u8]>
        requires short { length self.now.text.now ≤ plan_byte_limit }
        ensures word { (step : Step)
            → IsPlanText self.now.text.now (step ∷ []) → IsWordAt step place result }
        ensures slice { IfSome result (λ word. IsPartOf self.now.text.now word.now) }
    {
        let mut lexer = Lexer::new(self.text);
        let _open = lexer.next();
        for _passed in 0..place {
            lexer.next_word()?;
        }
        lexer.next_word()
    }
}

/// A step, or why there is none.
#[derive(Clone, Copy)]
pub enum NextStep<'a> {
    /// The next step.
    Step(PlanStep<'a>),
    /// The text has no more steps, and no offence.
    End,
    /// The first offence of the text.
    Bad(Refusal),
}

/// Gives the steps of a plan text in order, as slices of it. It takes no memory.
#[derive(Drop)]
pub struct PlanReader<'a> {
    text: &'a [u8],
    lexer: Lexer<'a>,
    given: u32,
    stopped: Option<Refusal>,
}

impl<'a> Model for PlanReader<'a> {
    ghost use Rattle.std.specs.Prelude.{◌≡◌, ◌≤◌, length};
    ghost use Rattle.p3_task.specs.Sides.{plan_byte_limit};
    ghost use Rattle.p3_plans.specs.Steps.{Progress};

    ghost Value = { Progress };

    ghost view = { λ reader. record {
      source = reader.text.now;
      at = reader.lexer.at;
      given = reader.given;
      stopped =
          reader.stopped;
    } };

    ghost invariant = { λ reader. (reader.lexer.source ≡ reader.text.now)
        × (length reader.text.now ≤ plan_byte_limit) };
}

impl<'a> PlanReader<'a> {
    /// Begins at the start of the text.
    pub fn new(text: &'a [u8]) -> PlanReader<'a>
        requires short { length text.now ≤ plan_byte_limit }
        ensures starts { result ≡ record { source = text.now; at = 0; given = 0; stopped = None } }
    {
        PlanReader {
            text,
            lexer: Lexer::new(text),
            given: 0,
            stopped: None,
        }
    }

    /// The next step. At the end, and at the first offence, each further call answers the same.
    #[expect(clippy::should_implement_trait)]
    #[tactic(auto, using(crate::proofs::StepLemmas::rests))]
    pub fn next(&mut self) -> NextStep<'a>
        ensures source { self.new.source ≡ self.old.source }
        // What is given and what is left make up what was left before.
        ensures steps { left self.old ≡ with_next result (left self.new) }
        // A step is the slice of the text at its offset.
        ensures slice { Takes self.old.source result self.new.at }
        // Before it stand blanks and comments alone.
        ensures gap { IsBehindGap self.old.source self.old.at result }
        // After the last step nothing changes.
        ensures rests { Rests self.old result self.new }
    {
        if let Some(refusal) = self.stopped {
            return NextStep::Bad(refusal);
        }
        let (next, given) = next_step(self.text, &mut self.lexer, self.given);
        self.given = given;
        self.stopped = stop(next);
        next
    }
}

/// The refusal where there is no further step.
fn stop(next: NextStep<'_>) -> Option<Refusal>
    ensures { result ≡ stopped_by next.entry }
{
    match next {
        NextStep::Step(_) | NextStep::End => None,
        NextStep::Bad(refusal) => Some(refusal),
    }
}

/// The next step behind so many steps, and how many then were begun.
fn next_step<'a>(text: &'a [u8], lexer: &mut Lexer<'a>, given: u32) -> (NextStep<'a>, u32)
    requires source { lexer.old.source ≡ text.now }
    requires short { length text.now ≤ plan_byte_limit }
    ensures source { lexer.new.source ≡ text.now }
    ensures steps { parts text.now (Outside given) 0 (lexing.left lexer.old)
        ≡ with_next result.0 (parts text.now (Outside result.1) 0 (lexing.left lexer.new)) }
    ensures slice { Takes text.now result.0 lexer.new.at }
    ensures gap { IsBehindGap text.now lexer.old.at result.0 }
    ensures ends { Ends result.0 (lexing.left lexer.new) }
{
    let mut before = Before::Outside { steps: given };
    loop {
        match lexer.next() {
            Next::Token {
                text: word,
                offset: place,
            } => {
                let later = match advanced(before, place, word) {
                    Ok(later) => later,
                    Err(refusal) => return (NextStep::Bad(refusal), given),
                };
                if let Before::Outside { steps } = later {
                    let step = step_at(text, before.begin(), place);
                    return (NextStep::Step(step), steps);
                }
                before = later;
            }
            Next::End => return (end_of(text, before), given),
            Next::Bad(place) => return (NextStep::Bad(refusal(Code::BadByte, place, 1)), given),
        }
    }
}

/// The step between its parentheses.
fn step_at(text: &[u8], begin: u32, close: u32) -> PlanStep<'_>
    requires order { begin ≤ close }
    requires within { close < length text.now }
    ensures text { result.text.now ≡ take ((close + 1) - begin) (drop begin text.now) }
    ensures offset { result.offset ≡ begin }
{
    PlanStep {
        text: &text[begin as usize..close as usize + 1],
        offset: begin,
    }
}

/// At the end of the text, inside a step or not.
fn end_of(text: &[u8], before: Before) -> NextStep<'_>
    requires short { length text.now ≤ plan_byte_limit }
    ensures offence { (later : Left)
        → with_next result later ≡ nothing (end_offence (length text.now) (the_before before)) }
    ensures slice { (source : List ℕ) (end : ℕ) → Takes source result end }
    ensures gap { (source : List ℕ) (at : ℕ) → IsBehindGap source at result }
{
    match before {
        Before::Outside { .. } => NextStep::End,
        Before::Begun { .. } | Before::Named { .. } => {
            NextStep::Bad(refusal(Code::Unbalanced, text.len() as u32, 0))
        }
    }
}
