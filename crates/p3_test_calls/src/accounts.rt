//! What is printed, byte for byte. What is printed of, and what it is printed to, are made by functions
//! of their own, so that a test has little to let go of.

use crate::lists::one;
use p3_accounts::{
    Account, Binding, CostShare, Heading, InputFile, Lines, Meaning, Meant, NameShare,
    OperatorKind, Shares, Shown, ShownState, Spot, StepFault, Subject, Terms, put_account,
    put_heading, put_meaning,
};
use p3_base::{List, MemSink, Name, NoMemory, SinkFailed, Unary};
use p3_numbers::Numbers;
use p3_reasons::{Literal, PlacedStep};
use p3_reports::Quantity;
use p3_task::Step;
use std::alloc::Global;
use std::test::Fail;

/// Makes names of these words.
fn names(alloc: Global, words: &[&str]) -> Result<List<Name>, NoMemory> {
    let mut list = List::new(alloc);
    for word in words {
        list.push(Name::of(alloc, word.as_bytes())?)?;
    }
    Ok(list)
}

/// Makes numbers of a truck, two crates and two places.
fn numbers(alloc: Global) -> Result<Numbers, NoMemory> {
    Ok(Numbers {
        predicates: names(alloc, &["at", "in"])?,
        functions: names(alloc, &["road"])?,
        objects: names(alloc, &["t1", "c1", "c2", "a", "b"])?,
        preferences: names(alloc, &["light", "once"])?,
        types: List::new(alloc),
        ranges: List::new(alloc),
    })
}

/// Makes a list of numbers.
fn list(alloc: Global, numbers: &[u32]) -> Result<List<u32>, NoMemory> {
    Ok(List::from(Vec::from_slice(alloc, numbers)?))
}

/// Makes a quantity of so many tenths.
fn tenths(units: i128) -> Quantity {
    Quantity { places: 1, units }
}

/// Makes what the numbers stand for, without actions and steps.
fn terms(numbers: &Numbers) -> Terms<'_> {
    Terms {
        domain: b"d.pddl".as_slice(),
        problem: b"p.pddl".as_slice(),
        plan: b"plan".as_slice(),
        actions: &[],
        numbers,
        steps: &[],
    }
}

/// Gives what the sink took, where nothing failed.
fn taken(alloc: Global, put: Result<(), SinkFailed>, sink: &MemSink) -> Result<Vec<u8>, NoMemory> {
    match put {
        Ok(()) => Ok(Vec::from_slice(alloc, sink.bytes())?),
        Err(SinkFailed) => Err(NoMemory),
    }
}

/// Gives what is put of an account.
fn account_bytes(alloc: Global, account: &Account) -> Result<Vec<u8>, NoMemory> {
    let numbers = numbers(alloc)?;
    let mut sink = MemSink::new(alloc, 400)?;
    let put = put_account(account, &terms(&numbers), &mut sink);
    taken(alloc, put, &sink)
}

/// Gives what is put of a heading.
fn heading_bytes(alloc: Global, heading: &Heading) -> Result<Vec<u8>, NoMemory> {
    let numbers = numbers(alloc)?;
    let mut sink = MemSink::new(alloc, 20_000)?;
    let put = put_heading(heading, &terms(&numbers), &mut sink);
    taken(alloc, put, &sink)
}

/// Gives what is put of a heading into a sink that has room for 100 bytes, where it fails.
fn cut_heading_bytes(alloc: Global, heading: &Heading) -> Result<Vec<u8>, NoMemory> {
    let numbers = numbers(alloc)?;
    let mut sink = MemSink::new(alloc, 100)?;
    let put = put_heading(heading, &terms(&numbers), &mut sink);
    if put.is_ok() {
        return Err(NoMemory);
    }
    Ok(Vec::from_slice(alloc, sink.bytes())?)
}

/// Gives what is put of a name.
fn meaning_bytes(alloc: Global, meaning: &Meaning) -> Result<Vec<u8>, NoMemory> {
    let numbers = numbers(alloc)?;
    let mut sink = MemSink::new(alloc, 400)?;
    let put = put_meaning(meaning, &terms(&numbers), &mut sink);
    taken(alloc, put, &sink)
}

/// Makes the literals that crate c1 is at place b, which does not hold, and that crate c2 is in the truck.
fn literals(alloc: Global) -> Result<List<Literal>, NoMemory> {
    let mut literals = one(
        alloc,
        Literal {
            atom: list(alloc, &[0, 1, 4])?,
            holds: false,
        },
    )?;
    literals.push(Literal {
        atom: list(alloc, &[1, 2, 0])?,
        holds: true,
    })?;
    Ok(literals)
}

/// Makes the heading of a step of a plan, with these literals in the first state.
fn heading(alloc: Global, words: Step, fault: StepFault) -> Result<Heading, NoMemory> {
    let states = one(alloc, ShownState::of(0, literals(alloc)?))?;
    Ok(Heading {
        spot: Some(Spot {
            file: InputFile::Plan,
            line: 1,
            column: 3,
        }),
        subject: Subject::Step {
            number: 1,
            words,
            fault,
        },
        shown: Shown::States(states),
    })
}

/// Makes a step of that name with these words behind it.
fn step(alloc: Global, action: &[u8], words: &[&str]) -> Result<Step, NoMemory> {
    let action = Name::of(alloc, action)?;
    let args = names(alloc, words)?;
    Ok(Step { action, args })
}

/// Makes the heading of a step whose precondition does not hold.
fn precondition(alloc: Global) -> Result<Heading, NoMemory> {
    let words = step(alloc, b"load", &["c1", "t1", "b"])?;
    heading(alloc, words, StepFault::Precondition)
}

/// Makes the heading of a step with a name of 5,000 letters.
fn long_heading(alloc: Global) -> Result<Heading, NoMemory> {
    let words = step(alloc, &[b'x'; 5000], &[])?;
    heading(alloc, words, StepFault::UnknownAction)
}

/// Makes a preference of which nothing is shown.
fn preference(alloc: Global) -> Result<Subject, NoMemory> {
    let bindings = one(
        alloc,
        Binding {
            variable: Name::of(alloc, b"?c")?,
            object: 1,
        },
    )?;
    Ok(Subject::Preference {
        name: Some(1),
        operator: OperatorKind::One(Unary::Sometime),
        bindings,
    })
}

/// Makes what a metric is made of.
fn shares(alloc: Global) -> Result<Shares, NoMemory> {
    let names = one(
        alloc,
        NameShare {
            name: 1,
            weight: 30,
            count: 2,
        },
    )?;
    Ok(Shares {
        places: 1,
        cost_places: 0,
        base: tenths(5),
        names,
        cost: CostShare {
            weight: 10,
            growth: 40,
        },
        loss: tenths(465),
        metric: tenths(-465),
    })
}

/// Makes the account of a valid plan with a preference that is not satisfied.
fn account(alloc: Global) -> Result<Account, NoMemory> {
    let shares = shares(alloc)?;
    let subject = preference(alloc)?;
    let headings = one(
        alloc,
        Heading {
            spot: None,
            subject,
            shown: Shown::Nowhere,
        },
    )?;
    Ok(Account {
        verdict: None,
        headings,
        shares: Some(shares),
    })
}

/// Makes what a monitor of the preference means.
fn monitor(alloc: Global) -> Result<Meaning, NoMemory> {
    let subject = preference(alloc)?;
    Ok(Meaning {
        spot: Some(Spot {
            file: InputFile::Problem,
            line: 12,
            column: 7,
        }),
        number: 1,
        of: Meant::Monitor(subject),
    })
}

/// Makes what a step means whose action has no name.
fn nameless_step(alloc: Global) -> Result<Meaning, NoMemory> {
    let objects = list(alloc, &[0, 3])?;
    Ok(Meaning {
        spot: None,
        number: 9,
        of: Meant::Step(PlacedStep { action: 0, objects }),
    })
}

/// Gives what is put of the account.
fn printed_account(alloc: Global) -> Result<Vec<u8>, NoMemory> {
    let account = account(alloc)?;
    account_bytes(alloc, &account)
}

#[test]
fn an_account_is_put_line_by_line(rt: HostRuntime) -> Result<(), Fail> {
    let bytes = printed_account(rt.alloc())?;
    let lines = b"valid
preference once, sometime, ?c = c1: not satisfied
  in no state
base 0.5
once: 3.0 * 2 = 6.0
cost: 1.0 * 40 = 40.0
loss 46.5
metric -46.5
";
    assert_eq!(rt; bytes.as_slice(), lines.as_slice());
    Ok(())
}

/// Gives what is put of the heading of a step.
fn printed_heading(alloc: Global) -> Result<Vec<u8>, NoMemory> {
    let heading = precondition(alloc)?;
    heading_bytes(alloc, &heading)
}

#[test]
fn a_heading_is_put_with_its_states(rt: HostRuntime) -> Result<(), Fail> {
    let bytes = printed_heading(rt.alloc())?;
    let lines = b"plan:1:3: step 1 (load c1 t1 b): the precondition does not hold
  state 0, at the start:
    false: (at c1 b)
    true: (in c2 t1)
";
    assert_eq!(rt; bytes.as_slice(), lines.as_slice());
    Ok(())
}

/// How many bytes are put of a long heading.
fn long_heading_size(alloc: Global) -> Result<usize, NoMemory> {
    let heading = long_heading(alloc)?;
    let bytes = heading_bytes(alloc, &heading)?;
    Ok(bytes.len())
}

#[test]
fn a_heading_longer_than_most_is_put(rt: HostRuntime) -> Result<(), Fail> {
    let size = long_heading_size(rt.alloc())?;
    assert!(rt; size > 10_000);
    Ok(())
}

/// Gives what is put of a long heading before the sink fails.
fn cut_heading(alloc: Global) -> Result<Vec<u8>, NoMemory> {
    let heading = long_heading(alloc)?;
    cut_heading_bytes(alloc, &heading)
}

#[test]
fn a_heading_longer_than_most_is_put_piece_by_piece(rt: HostRuntime) -> Result<(), Fail> {
    let bytes = cut_heading(rt.alloc())?;
    assert_eq!(rt; bytes.as_slice(), b"plan:1:3: step 1 (".as_slice());
    Ok(())
}

/// Gives what is put of a monitor.
fn printed_monitor(alloc: Global) -> Result<Vec<u8>, NoMemory> {
    let monitor = monitor(alloc)?;
    meaning_bytes(alloc, &monitor)
}

#[test]
fn a_monitor_is_told_with_its_place(rt: HostRuntime) -> Result<(), Fail> {
    let bytes = printed_monitor(rt.alloc())?;
    let line = b"p.pddl:12:7: m1 preference once, sometime, ?c = c1\n";
    assert_eq!(rt; bytes.as_slice(), line.as_slice());
    Ok(())
}

/// Gives what is put of a step.
fn printed_step(alloc: Global) -> Result<Vec<u8>, NoMemory> {
    let step = nameless_step(alloc)?;
    meaning_bytes(alloc, &step)
}

#[test]
fn a_step_is_told_without_a_place(rt: HostRuntime) -> Result<(), Fail> {
    let bytes = printed_step(rt.alloc())?;
    assert_eq!(rt; bytes.as_slice(), b"s9 ( t1 a)\n".as_slice());
    Ok(())
}

#[test]
fn lines_tell_the_spot_of_each_offset(rt: HostRuntime) -> Result<(), Fail> {
    let lines = Lines::of(rt.alloc(), b"ab\n\nc\n".as_slice())?;
    let spots = [
        (0, 1, 1),
        (2, 1, 3),
        (3, 2, 1),
        (4, 3, 1),
        (5, 3, 2),
        (6, 4, 1),
        (9, 4, 1),
    ];
    for (offset, line, column) in spots {
        let spot = lines.spot(InputFile::Domain, offset);
        assert_eq!(rt; (spot.line, spot.column), (line, column));
    }
    Ok(())
}

#[test]
fn a_text_without_bytes_has_one_line(rt: HostRuntime) -> Result<(), Fail> {
    let lines = Lines::of(rt.alloc(), b"".as_slice())?;
    let spot = lines.spot(InputFile::Plan, 0);
    assert_eq!(rt; (spot.line, spot.column), (1, 1));
    Ok(())
}
