//! What a regression answers for the second time, where nothing is changed, and in which states.

use p3_base::{List, NoMemory};
use p3_formula::{Change, Effects, Form, Table, same_form};
use p3_regress::{Regressed, regress};
use std::alloc::Global;
use std::test::Fail;

/// Atom 0 is cleared where atom 1 is set, and set where atom 2 is.
fn two_changes(alloc: Global) -> Result<Effects, NoMemory> {
    let mut effects = List::new(alloc);
    effects.push(Change {
        cond: Form::Atom(1),
        atom: 0,
        add: false,
    })?;
    effects.push(Change {
        cond: Form::Atom(2),
        atom: 0,
        add: true,
    })?;
    Ok(effects)
}

/// Gives the number of what an atom is before a step, and how many nodes the table has then; and once
/// more, asked again.
fn answered_twice(alloc: Global) -> Result<[usize; 4], NoMemory> {
    let effects = two_changes(alloc)?;
    let mut table = Table::new(alloc);
    let number = table.of(&Form::Atom(0))?;
    let mut regressed = Regressed::open(alloc, table, &effects)?;
    let first = regressed.of(number)?;
    let nodes = regressed.table().len();
    let second = regressed.of(number)?;
    Ok([first, nodes, second, regressed.table().len()])
}

#[test]
fn a_number_is_answered_once(rt: HostRuntime) -> Result<(), Fail> {
    let [first, nodes, second, nodes_again] = answered_twice(rt.alloc())?;
    assert_eq!(&rt; (first, nodes), (second, nodes_again));
    Ok(())
}

/// What a form is before the step.
fn before_step(alloc: Global, form: &Form) -> Result<Form, NoMemory> {
    let effects = two_changes(alloc)?;
    regress(alloc, form, &effects)
}

/// Whether a form over another atom is the same before the step, the part that never holds as well.
fn untouched_stays(alloc: Global) -> Result<bool, NoMemory> {
    let form = Form::Or(List::from(vec![in alloc; Form::Atom(3), Form::False]?));
    let before = before_step(alloc, &form)?;
    Ok(same_form(&before, &form))
}

#[test]
fn what_nothing_touches_stays(rt: HostRuntime) -> Result<(), Fail> {
    assert!(&rt; untouched_stays(rt.alloc())?);
    Ok(())
}

/// Whether the form holds where just these atoms are set.
#[cycle(holds)]
fn holds(form: &Form, set: &[usize]) -> bool {
    match form {
        Form::True => true,
        Form::False => false,
        Form::Atom(atom) => set.contains(atom),
        Form::Not(part) => !holds(part.get(), set),
        Form::And(parts) => hold_to(parts.items(), set, true),
        Form::Or(parts) => !hold_to(parts.items(), set, false),
    }
}

/// Whether each of the forms has that value where just these atoms are set.
#[cycle(holds)]
fn hold_to(parts: &[Form], set: &[usize], value: bool) -> bool {
    for part in parts {
        if holds(part, set) != value {
            return false;
        }
    }
    true
}

/// Whether the atom is set behind the step, where before it none of three atoms is set, one, two of
/// them, and all.
fn are_set_behind(alloc: Global) -> Result<[bool; 8], NoMemory> {
    let before = before_step(alloc, &Form::Atom(0))?;
    Ok([
        holds(&before, &[]),
        holds(&before, &[0]),
        holds(&before, &[1]),
        holds(&before, &[2]),
        holds(&before, &[0, 1]),
        holds(&before, &[0, 2]),
        holds(&before, &[1, 2]),
        holds(&before, &[0, 1, 2]),
    ])
}

#[test]
fn what_is_added_beside_what_is_deleted_holds_in_five_states(rt: HostRuntime) -> Result<(), Fail> {
    let found = are_set_behind(rt.alloc())?;
    let wanted = [false, true, false, true, false, true, true, true];
    assert_eq!(&rt; found, wanted);
    Ok(())
}
