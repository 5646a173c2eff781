//! The first offence of a plan text, by itself.

ghost use Rattle.std.specs.Prelude.{◌≡◌, ◌≤◌, length};
ghost use Rattle.p3_task.specs.PlanTexts.{plan_offence};
ghost use Rattle.p3_task.specs.Sides.{plan_byte_limit};
ghost use Rattle.p3_plans.specs.Steps.{left};

use crate::reader::{NextStep, PlanReader};
use p3_base::Refusal;

impl<'a> PlanReader<'a> {
    /// Reads what is left to its end: its first offence, where it has one.
    pub fn offence(&mut self) -> Option<Refusal>
        ensures { result ≡ (left self.old).offence }
    {
        loop {
            match self.next() {
                NextStep::Step(_) => {}
                NextStep::End => return None,
                NextStep::Bad(refusal) => return Some(refusal),
            }
        }
    }
}

/// The first offence of a plan text, where it has one. It takes no memory.
pub fn first_plan_offence(text: &[u8]) -> Option<Refusal>
    requires short { length text.now ≤ plan_byte_limit }
    ensures { result ≡ plan_offence text.now }
{
    let mut reader = PlanReader::new(text);
    reader.offence()
}
