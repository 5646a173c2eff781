//! The step that a line of a plan text has.

ghost use Rattle.std.specs.Prelude.{◌≡◌, ◌≤◌, length, Some};
ghost use Rattle.p3_task.specs.Tokens.{tokens_of};
ghost use Rattle.p3_task.specs.Watching as watching;
ghost use Rattle.p3_task.specs.Sides.{plan_byte_limit};
ghost use Rattle.p3_plans.specs.Lines.{IsLineStep};

use crate::before::refusal;
use crate::offence::first_plan_offence;
use crate::reader::{NextStep, PlanReader, PlanStep};
use p3_base::{Code, Refusal};
use p3_lexer::{Lexer, Next, is_close, is_open};

/// What a line of a plan text has.
#[derive(Clone, Copy)]
pub enum LineStep<'a> {
    /// Blanks and comments alone.
    Blank,
    /// One step.
    Step(PlanStep<'a>),
    /// An offence of a plan text, or the `(` of a second step: the first of them.
    Bad(Refusal),
}

/// Finds the step of a line, or its first offence. It takes no memory.
pub fn line_step(line: &[u8]) -> LineStep<'_>
    requires short { length line.now ≤ plan_byte_limit }
    ensures { IsLineStep line.now (watching.line_text line.now) result }
{
    if let Some(refusal) = first_line_offence(line) {
        return LineStep::Bad(refusal);
    }
    let mut reader = PlanReader::new(line);
    match reader.next() {
        NextStep::Step(step) => LineStep::Step(step),
        NextStep::End => LineStep::Blank,
        NextStep::Bad(refusal) => LineStep::Bad(refusal),
    }
}

/// Finds the first offence of a line: one of a plan text, or the `(` of a second step.
fn first_line_offence(line: &[u8]) -> Option<Refusal>
    requires short { length line.now ≤ plan_byte_limit }
    ensures { result ≡ watching.line_offence line.now }
{
    let offence = first_plan_offence(line);
    match second_step(line) {
        Some(place) => Some(earlier(offence, place)),
        None => offence,
    }
}

/// Tells the offence, or that of a second step at that place where it comes first.
fn earlier(offence: Option<Refusal>, place: u32) -> Refusal
    ensures { Some result ≡ watching.earlier_by offence (Some place) }
{
    match offence {
        Some(first) => {
            if place < first.pos.offset {
                refusal(Code::Malformed, place, 1)
            } else {
                first
            }
        }
        None => refusal(Code::Malformed, place, 1),
    }
}

/// Finds the first `(` behind the first `)`.
fn second_step(line: &[u8]) -> Option<u32>
    requires short { length line.now ≤ plan_byte_limit }
    ensures { result ≡ watching.second_step (tokens_of line.now).tokens }
{
    let mut lexer = Lexer::new(line);
    let mut closed = false;
    loop {
        match lexer.next() {
            Next::Token { text, offset } => {
                if closed && is_open(text) {
                    return Some(offset);
                }
                closed = closed || is_close(text);
            }
            Next::End | Next::Bad(_) => return None,
        }
    }
}
