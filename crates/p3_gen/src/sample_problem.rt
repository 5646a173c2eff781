//! The problem half: places in a row, joined by roads, and the packages, which start at the first.

ghost use Rattle.std.specs.Prelude.{◌≡◌, ◌+◌, ◌≤◌, ◌++◌, IfOk, OnOk, string_bytes};
ghost use Rattle.p3_tree.specs.Commands.{sample_limit};
ghost use Rattle.p3_tree.specs.Samples.{sample_problem};
ghost use Rattle.p3_gen.specs.Pieces.{constraints_line, goal_line, objects_line, start_line};

use crate::piece::{Piece, push_pieces};
use p3_base::NoMemory;
use std::alloc::Global;

/// What the plans of the sample are rated by.
const METRIC: &str =
    "(:metric minimize (+ (total-cost) (* 3 (is-violated calm)) (* 10 (is-violated home)) (* 4 (is-violated tour)) (* 2 (is-violated rest)))))\n";

pub(crate) fn problem_text(alloc: Global, n: u32) -> Result<String, NoMemory>
    requires { n ≤ sample_limit }
    ensures { IfOk result (λ text. string_bytes text ≡ sample_problem n) }
{
    let mut text = String::new(alloc);
    write!(text, "(define (problem delivery-{n})\n(:domain delivery)\n")?;
    push_objects(&mut text, n)?;
    push_start(&mut text, n)?;
    push_constraints(&mut text, n)?;
    push_goal(&mut text, n)?;
    text.push_str(METRIC)?;
    Ok(text)
}

fn push_objects(text: &mut String, n: u32) -> Result<(), NoMemory>
    requires { n ≤ sample_limit }
    ensures { OnOk result (string_bytes text.new ≡ string_bytes text.old ++ objects_line n) }
{
    text.push_str("(:objects")?;
    push_pieces(text, Piece::Place, 0, n + 1)?;
    text.push_str(" - place")?;
    push_pieces(text, Piece::Parcel, 1, n)?;
    text.push_str(" - package)\n")?;
    Ok(())
}

fn push_start(text: &mut String, n: u32) -> Result<(), NoMemory>
    requires { n ≤ sample_limit }
    ensures { OnOk result (string_bytes text.new ≡ string_bytes text.old ++ start_line n) }
{
    text.push_str("(:init (truck-at l0)")?;
    push_pieces(text, Piece::Start, 1, n)?;
    push_pieces(text, Piece::Destination, 1, n)?;
    text.push_str(" (= (total-cost) 0)")?;
    push_pieces(text, Piece::Roads, 1, n)?;
    text.push_str(")\n")?;
    Ok(())
}

fn push_constraints(text: &mut String, n: u32) -> Result<(), NoMemory>
    ensures { OnOk result
        (string_bytes text.new ≡ string_bytes text.old ++ constraints_line n) }
{
    write!(
        text,
        "(:constraints (and (sometime-after (carrying) (truck-at l{n})) "
    )?;
    write!(
        text,
        "(preference tour (sometime-before (truck-at l{n}) (carrying))) "
    )?;
    text.push_str("(preference rest (at-most-once (carrying)))))\n")?;
    Ok(())
}

fn push_goal(text: &mut String, n: u32) -> Result<(), NoMemory>
    ensures { OnOk result (string_bytes text.new ≡ string_bytes text.old ++ goal_line n) }
{
    write!(text, "(:goal (and (truck-at l{n}) (forall (?p - package) ")?;
    text.push_str("(preference home (exists (?l - place) (and (dest ?p ?l) (at ?p ?l)))))))\n")?;
    Ok(())
}
