//! What is printed, byte for byte.

use crate::{
    EvaluateReport, Fault, Misfit, NameCount, Part, PlacedRefusal, Quantity, Rejection, Report,
    put_part, put_parts, put_rejection, put_report,
};
use p3_base::{Code, List, MemSink, Name, Pos, Refusal, Role, SinkFailed};
use std::test::Fail;

#[test]
fn a_valid_plan_is_reported_line_by_line(rt: HostRuntime) -> Result<(), Fail> {
    let alloc = rt.alloc();
    let mut sink = MemSink::new(alloc, 200)?;
    let mut violations = List::new(alloc);
    violations.push(NameCount {
        name: Name::of(alloc, b"Home")?,
        count: 12,
    })?;
    violations.push(NameCount {
        name: Name::of(alloc, b"tour")?,
        count: 0,
    })?;
    let report = EvaluateReport {
        steps: 7,
        cost: Quantity {
            places: 0,
            units: 30,
        },
        violations,
        metric: Quantity {
            places: 2,
            units: -305,
        },
    };
    assert_eq!(rt; put_report(&Report::Evaluate(report), &mut sink), Ok(()));
    let lines = b"valid\nsteps 7\ncost 30\nviolated home 12\nviolated tour 0\nmetric -3.05\n";
    assert_eq!(rt; sink.bytes(), lines.as_slice());
    Ok(())
}

#[test]
fn a_refusal_names_its_place_and_its_word(rt: HostRuntime) -> Result<(), Fail> {
    let alloc = rt.alloc();
    let mut sink = MemSink::new(alloc, 200)?;
    let refusal = Refusal {
        code: Code::Unknown,
        pos: Pos {
            role: Role::WrittenProblem,
            offset: 5,
        },
        len: 3,
    };
    let placed = Rejection::At(PlacedRefusal::of(&refusal, b"(a\n (BcD e))"));
    assert_eq!(rt; put_rejection(&placed, &mut sink), Ok(()));
    let foreign = Refusal {
        code: Code::BadByte,
        pos: Pos {
            role: Role::Plan,
            offset: 1,
        },
        len: 1,
    };
    let placed = Rejection::At(PlacedRefusal::of(&foreign, b"(\xc3"));
    assert_eq!(rt; put_rejection(&placed, &mut sink), Ok(()));
    let lines =
        b"refused 7 unknown: written-problem 2:3 bcd\nrefused 1 bad byte: plan 1:2 byte c3\n";
    assert_eq!(rt; sink.bytes(), lines.as_slice());
    Ok(())
}

#[test]
fn a_lifted_plan_differs_by_a_fault_or_by_numbers(rt: HostRuntime) -> Result<(), Fail> {
    let alloc = rt.alloc();
    let mut sink = MemSink::new(alloc, 200)?;
    let fault = Fault::AtStep(3, Misfit::NoCost);
    assert_eq!(rt;
        put_rejection(&Rejection::LiftedFault(fault), &mut sink),
        Ok(())
    );
    let other = Rejection::LiftedFault(Fault::AtConstraint(0));
    assert_eq!(rt; put_rejection(&other, &mut sink), Ok(()));
    let numbers = Rejection::NumbersDiffer { cost: -4, loss: 5 };
    assert_eq!(rt; put_rejection(&numbers, &mut sink), Ok(()));
    let lines =
        b"refused 20 mismatch: invalid step 3: no cost\nrefused 20 mismatch: invalid: constraint 0\nrefused 20 mismatch: cost -4 loss 5\n";
    assert_eq!(rt; sink.bytes(), lines.as_slice());
    Ok(())
}

#[test]
fn a_scale_of_1_is_not_printed(rt: HostRuntime) -> Result<(), Fail> {
    let alloc = rt.alloc();
    let mut sink = MemSink::new(alloc, 200)?;
    let whole = Quantity {
        places: 0,
        units: 5,
    };
    let tenth = Quantity {
        places: 1,
        units: 5,
    };
    let parts = [
        Part::Base(whole),
        Part::Scale(whole),
        Part::Base(tenth),
        Part::Scale(tenth),
    ];
    assert_eq!(rt; put_parts(&parts, &mut sink), Ok(()));
    assert_eq!(rt; sink.bytes(), b"base 5\nbase 0.5\nscale 10\n".as_slice());
    Ok(())
}

#[test]
fn a_line_longer_than_most_is_put_piece_by_piece(rt: HostRuntime) -> Result<(), Fail> {
    let alloc = rt.alloc();
    let name = [b'x'; 300];
    let part = Part::Violated(&name, 1);
    let mut sink = MemSink::new(alloc, 312)?;
    assert_eq!(rt; put_part(&part, &mut sink), Ok(()));
    assert_eq!(rt; sink.bytes().len(), 312);
    let mut short = MemSink::new(alloc, 200)?;
    assert_eq!(rt; put_part(&part, &mut short), Err(SinkFailed));
    assert_eq!(rt; short.bytes(), b"violated ".as_slice());
    Ok(())
}
