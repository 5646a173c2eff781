//! What stands before a token of a plan text, and which tokens may stand there.

ghost use Rattle.std.specs.Prelude.{◌≡◌, ◌≤◌, ◌≢◌, length, codes};
ghost use Rattle.std.specs.Str.{str_to_ascii_lowercase};
ghost use Rattle.p3_lexer.specs.Lexing.{token_of};
ghost use Rattle.p3_task.specs.PlanTexts as texts;
ghost use Rattle.p3_task.specs.Sides.{plan_byte_limit};
ghost use Rattle.p3_plans.specs.declared.before.Before.TheVariants as before;
ghost use Rattle.p3_plans.specs.Befores.{Leads, begin_of};

use p3_base::{Code, Pos, Refusal, Role};
use p3_lexer::{is_close, is_open};

/// No plan has more steps.
const STEP_LIMIT: u32 = 1_000_000;

/// What stands before a token: no step is open; a step's `(` alone; or its name too. The steps
/// begun so far are counted, and a step that is open begins somewhere.
#[derive(Clone, Copy)]
pub(crate) enum Before {
    Outside { steps: u32 },
    Begun { steps: u32, begin: u32 },
    Named { steps: u32, begin: u32 },
}

impl Before {
    /// Where the open step begins.
    pub(crate) fn begin(self) -> u32
        ensures { result ≡ begin_of self }
    {
        match self {
            Before::Outside { .. } => 0,
            Before::Begun { begin, .. } | Before::Named { begin, .. } => begin,
        }
    }
}

pub(crate) fn refusal(code: Code, offset: u32, len: u32) -> Refusal
    ensures { result ≡ texts.refusal code offset len }
{
    Refusal {
        code,
        pos: Pos {
            role: Role::Plan,
            offset,
        },
        len,
    }
}

/// No variable, and no keyword.
fn is_plan_word(word: &[u8]) -> bool
    ensures { result ≡ texts.is_plan_word (str_to_ascii_lowercase word.now) }
{
    match word {
        [] => false,
        [first, ..] => *first != b'?' && *first != b':',
    }
}

/// Outside steps, a step may begin.
fn begun(steps: u32, offset: u32, text: &[u8]) -> Result<Before, Refusal>
    requires short { length text.now ≤ plan_byte_limit }
    ensures { Leads (before.Outside steps) (token_of offset text.now) result }
{
    if is_open(text) {
        if steps < STEP_LIMIT {
            Ok(Before::Begun {
                steps: steps + 1,
                begin: offset,
            })
        } else {
            Err(refusal(Code::TooManySteps, offset, 1))
        }
    } else if is_close(text) {
        Err(refusal(Code::Unbalanced, offset, 1))
    } else {
        Err(refusal(Code::Malformed, offset, text.len() as u32))
    }
}

/// In a step, a name or an argument may stand.
fn named(steps: u32, begin: u32, offset: u32, text: &[u8]) -> Result<Before, Refusal>
    requires short { length text.now ≤ plan_byte_limit }
    ensures first { Leads (before.Begun steps begin) (token_of offset text.now) result }
    ensures later { text.now ≢ codes ")"
        → Leads (before.Named steps begin) (token_of offset text.now) result }
{
    if is_open(text) || is_close(text) {
        Err(refusal(Code::Malformed, offset, 1))
    } else if is_plan_word(text) {
        Ok(Before::Named { steps, begin })
    } else {
        Err(refusal(Code::Malformed, offset, text.len() as u32))
    }
}

/// What stands behind one more token, or its refusal.
pub(crate) fn advanced(before: Before, offset: u32, text: &[u8]) -> Result<Before, Refusal>
    requires short { length text.now ≤ plan_byte_limit }
    ensures { Leads before (token_of offset text.now) result }
{
    match before {
        Before::Outside { steps } => begun(steps, offset, text),
        Before::Begun { steps, begin } => named(steps, begin, offset, text),
        Before::Named { steps, .. } if is_close(text) => Ok(Before::Outside { steps }),
        Before::Named { steps, begin } => named(steps, begin, offset, text),
    }
}
