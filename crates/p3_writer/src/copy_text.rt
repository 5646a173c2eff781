//! The texts of the actions that are copies of a step.

ghost use Rattle.std.specs.Prelude.{◌≡◌, ◌++◌, ◌∷◌, ◌<◌, ◌^◌, length, map, IsTrue, OnOk};
ghost use Rattle.p3_base.specs.Copies.{copy_name};
ghost use Rattle.p3_formula.specs.Forms.{AreBelow, IsBelow};
ghost use Rattle.p3_formula.specs.Simplified.{spread};
ghost use Rattle.p3_formula.specs.Targets.{is_sized_action};
ghost use Rattle.p3_task.specs.Names.{is_empty};
ghost use Rattle.p3_writer.specs.AtomTexts.{action_start};
ghost use Rattle.p3_writer.specs.CopyText.{behind_atom, copied_action, digits_of};
ghost use Rattle.p3_writer.specs.Layout.{action_text, form_text, spaced};

use crate::atom_texts::AtomTexts;
use crate::layout::{push, push_bytes, push_effect, push_form, push_forms, push_number};
use p3_base::NoMemory;
use p3_formula::{Change, Form};

/// What the action of a copy of a step is written from. No name and no precondition of it is made.
#[derive(Drop)]
pub struct CopyParts<'c> {
    /// The number of the step.
    pub number: u32,
    /// Which of its preferences are violated: its name has a digit for each.
    pub violated: &'c [bool],
    /// The running atom, which is set where the action fits.
    pub go: usize,
    /// What else holds there.
    pub pre: &'c Form,
    /// What it changes.
    pub changes: &'c [Change],
    /// What it costs.
    pub cost: u64,
}

/// The action of a copy.
pub(crate) fn push_copy(
    out: &mut Vec<u8>,
    atoms: &AtomTexts<'_>,
    copy: &CopyParts<'_>,
) -> Result<(), NoMemory>
    requires { IsTrue (is_sized_action (length atoms.now) (copied_action copy.now)) }
    ensures layout { OnOk result
        (out.new.items ≡ out.old.items ++ action_text atoms.now (copied_action copy.now)) }
    ensures small { OnOk result (copy.now.cost < 2 ^ 64) }
{
    push_copy_head(out, copy.number, copy.violated)?;
    push_behind_atom(out, atoms, copy.go, copy.pre)?;
    push_effect(out, atoms, copy.changes, copy.cost)
}

/// What stands before the precondition of a copy: its name has a digit for each preference.
#[tactic(auto, using(crate::proofs::CopyLemmas::copy_begun))]
fn push_copy_head(out: &mut Vec<u8>, number: u32, violated: &[bool]) -> Result<(), NoMemory>
    ensures { OnOk result (out.new.items
        ≡ out.old.items ++ action_start (copy_name number (digits_of violated.now))) }
{
    push(out, "(:action s")?;
    push_number(out, u64::from(number))?;
    push(out, "v")?;
    push_digits(out, violated)?;
    push(out, " :parameters ()\n :precondition")
}

/// A digit for each preference: 1 where it is violated, and else 0.
fn push_digits(out: &mut Vec<u8>, violated: &[bool]) -> Result<(), NoMemory>
    ensures { OnOk result (out.new.items ≡ out.old.items ++ digits_of violated.now) }
{
    for one in violated {
        out.push(if *one { b'1' } else { b'0' })?;
    }
    Ok(())
}

/// The conjunction of the atom and of the form, with a space before it.
fn push_behind_atom(
    out: &mut Vec<u8>,
    atoms: &AtomTexts<'_>,
    atom: usize,
    form: &Form,
) -> Result<(), NoMemory>
    requires { IsBelow (length atoms.now) (behind_atom atom form.now) }
    ensures { OnOk result
        (out.new.items ≡ out.old.items ++ (32 ∷ form_text atoms.now (behind_atom atom form.now))) }
{
    if has_no_part(form) {
        return push_bytes(out, atoms.spaced(atom));
    }
    push(out, " (and")?;
    push_bytes(out, atoms.spaced(atom))?;
    push_parts(out, atoms, form)?;
    push(out, ")")
}

/// Whether the form has no part as a part of a conjunction.
fn has_no_part(form: &Form) -> bool
    ensures { result ≡ is_empty (spread form.now) }
{
    match form {
        Form::True => true,
        Form::And(parts) => parts.is_empty(),
        _ => false,
    }
}

/// What a conjunction that the form is part of consists of, each with a space before it.
fn push_parts(out: &mut Vec<u8>, atoms: &AtomTexts<'_>, form: &Form) -> Result<(), NoMemory>
    requires { AreBelow (length atoms.now) (spread form.now) }
    ensures { OnOk result (out.new.items
        ≡ out.old.items ++ spaced (map (form_text atoms.now) (spread form.now))) }
{
    match form {
        Form::True => Ok(()),
        Form::And(parts) => push_forms(out, atoms, parts.items()),
        other => push_form(out, atoms, other),
    }
}
