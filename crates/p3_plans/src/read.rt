//! Reading a plan.

ghost use Rattle.std.specs.Prelude.{◌≡◌, ◌≤◌, length, IfOk, IfErr, IsTrue, Some, None};
ghost use Rattle.std.specs.List.{list_all};
ghost use Rattle.p3_task.specs.PlanTexts.{IsPlanText, plan_offence, step_limit};
ghost use Rattle.p3_task.specs.Sides.{plan_byte_limit};
ghost use Rattle.p3_plans.specs.Drafts.{IfRefused};
ghost use Rattle.p3_plans.specs.Layout as layout;

use crate::PlanFail;
use crate::before::refusal;
use crate::draft::{Draft, add, whole};
use p3_base::{Code, List};
use p3_lexer::{Lexer, Next};
use p3_task::Plan;
use std::alloc::Global;

/// The plan of a text.
pub fn read_plan(alloc: Global, text: &[u8]) -> Result<Plan, PlanFail>
    requires short { length text.now ≤ plan_byte_limit }
    ensures read { IfOk result (λ plan. IsPlanText text.now plan) }
    ensures few { IfOk result (λ plan. length plan ≤ step_limit) }
    // What is read can be written.
    ensures writable { IfOk result (λ plan. IsTrue (list_all layout.has_written_words plan)) }
    // A text with an offence has no plan.
    ensures free { IfOk result (λ _. plan_offence text.now ≡ None) }
    // A text is refused at its first offence.
    ensures refused { IfErr result (λ fail.
        IfRefused fail (λ refusal. plan_offence text.now ≡ Some refusal)) }
{
    let mut draft = Draft::Outside {
        plan: List::new(alloc),
    };
    let mut lexer = Lexer::new(text);
    loop {
        match lexer.next() {
            Next::Token {
                text: word,
                offset: place,
            } => draft = add(alloc, draft, place, word)?,
            Next::End => return whole(draft, text.len() as u32),
            Next::Bad(place) => {
                return Err(PlanFail::Refused(refusal(Code::BadByte, place, 1)));
            }
        }
    }
}
