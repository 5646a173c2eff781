//! Tables of forms, a form that is simplified, bits, and names in order.

use p3_base::{List, Name, NoMemory};
use p3_formula::{Bits, Form, Node, Table, same_form, simplify};
use std::alloc::Global;
use std::cmp::Ordering;
use std::test::Fail;

/// Makes the form that an atom is set, and is not.
fn contradiction(alloc: Global) -> Result<Form, NoMemory> {
    let unset = Form::negation(alloc, Form::Atom(0))?;
    Form::both(alloc, Form::Atom(0), unset)
}

/// Gives the number of the form in a table, and how many nodes that has; and once more, asked again.
fn numbered_twice(alloc: Global, form: &Form) -> Result<[usize; 4], NoMemory> {
    let mut table = Table::new(alloc);
    let first = table.of(form)?;
    let nodes = table.len();
    let second = table.of(form)?;
    Ok([first, nodes, second, table.len()])
}

#[test]
fn shared_parts_stand_once(rt: HostRuntime) -> Result<(), Fail> {
    let alloc = rt.alloc();
    let found = numbered_twice(alloc, &contradiction(alloc)?)?;
    assert_eq!(&rt; found, [2, 3, 2, 3]);
    Ok(())
}

/// Whether a table gives the form back for its number.
fn comes_back(alloc: Global, form: &Form) -> Result<bool, NoMemory> {
    let mut table = Table::new(alloc);
    let number = table.of(form)?;
    let back = table.form(alloc, number)?;
    Ok(same_form(&back, form))
}

#[test]
fn a_form_comes_back_from_a_table(rt: HostRuntime) -> Result<(), Fail> {
    let alloc = rt.alloc();
    let found = comes_back(alloc, &contradiction(alloc)?)?;
    assert!(&rt; found);
    Ok(())
}

/// How many nodes a table has, made of a million.
fn large_table(alloc: Global) -> Result<usize, NoMemory> {
    let mut table = Table::new(alloc);
    for atom in 0..500_000 {
        let number = table.add(Node::Atom(atom))?;
        table.add(Node::Not(number))?;
    }
    Ok(table.len())
}

/// It is made in about a second.
#[test]
fn a_large_table(rt: HostRuntime) -> Result<(), Fail> {
    assert_eq!(&rt; large_table(rt.alloc())?, 1_000_000);
    Ok(())
}

#[test]
fn bits_are_set_one_by_one(rt: HostRuntime) -> Result<(), Fail> {
    let mut state = Bits::new(rt.alloc(), 2)?;
    state.set(1, true);
    assert_eq!(&rt;
        (state.count(), state.get(0), state.get(1)),
        (2, false, true)
    );
    Ok(())
}

#[test]
fn constants_are_left_out(rt: HostRuntime) -> Result<(), Fail> {
    let alloc = rt.alloc();
    let either = List::from(vec![in alloc; Form::Atom(0), Form::False]?);
    let form = Form::And(List::from(vec![in alloc; Form::True, Form::Or(either)]?));
    assert!(&rt; matches!(simplify(alloc, &form)?, Form::Atom(0)));
    Ok(())
}

/// How a name stands to another in capital letters, and that to itself.
fn orders(alloc: Global) -> Result<(Ordering, Ordering), NoMemory> {
    let first = Name::of(alloc, b"a9")?;
    let second = Name::of(alloc, b"AB")?;
    Ok((first.compare(&second), second.compare(&second)))
}

#[test]
fn names_are_compared_by_bytes(rt: HostRuntime) -> Result<(), Fail> {
    let (other, same) = orders(rt.alloc())?;
    assert_eq!(&rt; other, Ordering::Less);
    assert_eq!(&rt; same, Ordering::Equal);
    Ok(())
}
