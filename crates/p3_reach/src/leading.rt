//! Rules that say what a form, a change and a step lead to.

ghost use Rattle.std.specs.Prelude.{◌≡◌, ◌<◌, true, not, ◌||◌, length, OnOk};
ghost use Rattle.std.specs.List.{list_all, list_any};
ghost use Rattle.p3_formula.specs.Forms.{is_set, IsBelow, AreBelow};
ghost use Rattle.p3_formula.specs.Targets.{is_sized_change};
ghost use Rattle.p3_formula.specs.Conditions.{is_step_below};
ghost use Rattle.p3_reach.specs.Closed.{change_keeps, step_keeps};
ghost use Rattle.p3_reach.specs.May as may;
ghost use Rattle.p3_reach.specs.Models.{Says, leads};

use crate::rules::{Rule, Theory};
use p3_base::NoMemory;
use p3_formula::{Change, Form, GroundStep};

/// Says that the second proposition holds where the first does.
fn link(theory: &mut Theory, given: usize, gives: usize) -> Result<(), NoMemory>
    requires given { given < length theory.old.facts }
    requires gives { gives < length theory.old.facts }
    ensures { OnOk result (Says (leads given (λ set. true) gives) theory.old theory.new) }
{
    theory.add(Rule {
        first: given,
        second: given,
        gives,
    })
}

/// Says that the conclusion holds where the given proposition does and the atom may be set.
fn link_atom(theory: &mut Theory, given: usize, atom: usize, gives: usize) -> Result<(), NoMemory>
    requires given { given < length theory.old.facts }
    requires atom { atom < length theory.old.facts }
    requires gives { gives < length theory.old.facts }
    ensures { OnOk result
        (Says (leads given (λ set. is_set set atom) gives) theory.old theory.new) }
{
    theory.add(Rule {
        first: given,
        second: atom,
        gives,
    })
}

/// Says that the conclusion holds where the given proposition does and the form may hold, or else
/// where it may fail.
#[cycle(leading)]
fn lead(
    theory: &mut Theory,
    form: &Form,
    holds: bool,
    given: usize,
    gives: usize,
) -> Result<(), NoMemory>
    requires below { IsBelow theory.old.atoms form.now }
    requires given { given < length theory.old.facts }
    requires gives { gives < length theory.old.facts }
    ensures { OnOk result
        (Says (leads given (λ set. may.may_be holds set form.now) gives) theory.old theory.new) }
{
    match form {
        Form::True => lead_where(theory, holds, given, gives),
        Form::False => lead_where(theory, !holds, given, gives),
        Form::Atom(atom) => {
            if holds {
                link_atom(theory, given, *atom, gives)
            } else {
                link(theory, given, gives)
            }
        }
        Form::Not(part) => lead(theory, part.get(), !holds, given, gives),
        Form::And(parts) => {
            if holds {
                lead_by_all(theory, parts.items(), true, given, gives)
            } else {
                lead_by_some(theory, parts.items(), false, given, gives)
            }
        }
        Form::Or(parts) => {
            if holds {
                lead_by_some(theory, parts.items(), true, given, gives)
            } else {
                lead_by_all(theory, parts.items(), false, given, gives)
            }
        }
    }
}

/// Says it where something that is known holds.
fn lead_where(theory: &mut Theory, known: bool, given: usize, gives: usize) -> Result<(), NoMemory>
    requires given { given < length theory.old.facts }
    requires gives { gives < length theory.old.facts }
    ensures { OnOk result (Says (leads given (λ set. known) gives) theory.old theory.new) }
{
    if known {
        link(theory, given, gives)
    } else {
        Ok(())
    }
}

/// Says it where every part may hold, or else where every part may fail: a proposition for each
/// first few of the parts.
#[cycle(leading)]
fn lead_by_all(
    theory: &mut Theory,
    parts: &[Form],
    holds: bool,
    given: usize,
    gives: usize,
) -> Result<(), NoMemory>
    requires below { AreBelow theory.old.atoms parts.now }
    requires given { given < length theory.old.facts }
    requires gives { gives < length theory.old.facts }
    ensures { OnOk result
        (Says (leads given (λ set. list_all (may.may_be holds set) parts.now) gives) theory.old
        theory.new) }
{
    let mut reached = given;
    for part in parts {
        let next = theory.proposition()?;
        lead(theory, part, holds, reached, next)?;
        reached = next;
    }
    link(theory, reached, gives)
}

/// Says it where some part may hold, or else where some part may fail.
#[cycle(leading)]
fn lead_by_some(
    theory: &mut Theory,
    parts: &[Form],
    holds: bool,
    given: usize,
    gives: usize,
) -> Result<(), NoMemory>
    requires below { AreBelow theory.old.atoms parts.now }
    requires given { given < length theory.old.facts }
    requires gives { gives < length theory.old.facts }
    ensures { OnOk result
        (Says (leads given (λ set. list_any (may.may_be holds set) parts.now) gives) theory.old
        theory.new) }
{
    for part in parts {
        lead(theory, part, holds, given, gives)?;
    }
    Ok(())
}

/// Says what the changes of a step may add where it may fit.
fn lead_changes(theory: &mut Theory, changes: &[Change], fits: usize) -> Result<(), NoMemory>
    requires below { list_all (is_sized_change theory.old.atoms) changes.now ≡ true }
    requires fits { fits < length theory.old.facts }
    ensures { OnOk result
        (Says (λ set.
        not (is_set set fits) || list_all (change_keeps set) changes.now) theory.old
        theory.new) }
{
    for change in changes {
        if change.add {
            lead(theory, &change.cond, true, fits, change.atom)?;
        }
    }
    Ok(())
}

/// Says what a step may add, if the proposition holds.
pub fn lead_step(theory: &mut Theory, step: &GroundStep, given: usize) -> Result<(), NoMemory>
    requires below { is_step_below theory.old.atoms step.now ≡ true }
    requires given { given < length theory.old.facts }
    ensures { OnOk result
        (Says (λ set. not (is_set set given) || step_keeps set step.now) theory.old theory.new) }
{
    let fits = theory.proposition()?;
    lead(theory, &step.pre, true, given, fits)?;
    lead_changes(theory, step.effects.items(), fits)
}
