//! Laws of the condition on texts. Each is the contract of a function without a body.

ghost use Rattle.std.specs.Prelude.{IsTrue};
ghost use Rattle.p3_base.specs.declared.refusal.Side.{Side};
ghost use Rattle.p3_task.specs.declared.task.Task.{Task};
ghost use Rattle.p3_types.specs.Texts.{HasTexts, has_short_numbers};

/// The numbers of a task that is read from texts are short.
pub fn texts_have_short_numbers()
    ensures { (side : Side) (T : Task) → HasTexts side T → IsTrue (has_short_numbers side T) }
{}
