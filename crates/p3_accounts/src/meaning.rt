//! What the names of a written task stand for.

ghost use Rattle.std.specs.Prelude.{◌≡◌, ◌≤◌, OnErr, OnOk, flat_map};
ghost use Rattle.p3_base.specs.Outside.{IsPartlyPut, IsPut, Rose};
ghost use Rattle.p3_accounts.specs.Meanings.{
  letter_of,
  meaning_line,
  meant_text,
  sense_text,
  settling_text,
};
ghost use Rattle.p3_accounts.specs.Vocabularies.{vocabulary};

use crate::item::{Item, Printed, put_all, put_items};
use crate::spot::Spot;
use crate::subject::{Binding, Subject, put_subject};
use crate::terms::Terms;
use crate::words::{put_named, put_placed};
use p3_base::{List, Sink, SinkFailed};
use p3_reasons::PlacedStep;

/// What a name of a written task stands for.
#[derive(Debug, Drop)]
pub enum Meant {
    /// `s` and a number: a step.
    Step(PlacedStep),
    /// `f` and a number: the number of a predicate, and then those of objects.
    Atom(List<u32>),
    /// `m` and a number: an operator of a constraint or of a preference.
    Monitor(Subject),
    /// `e` and a number: how far preferences are settled behind the end of a plan.
    Chain(Settling),
}

/// How far the preferences over the visited states are settled.
#[derive(Debug, Drop)]
pub enum Settling {
    /// This one is settled next.
    Next {
        /// The number of its name, where it has one.
        name: Option<u32>,
        /// What the variables outside it mean.
        bindings: List<Binding>,
    },
    /// All are settled.
    Done,
}

/// A name of a written task with what it stands for.
#[derive(Debug, Drop)]
pub struct Meaning {
    /// Where that stands, where it is known.
    pub spot: Option<Spot>,
    /// The number in the name.
    pub number: u32,
    /// What the name stands for.
    pub of: Meant,
}

impl Printed for Meaning {
    ghost use Rattle.p3_accounts.specs.Meanings.{meaning_line};

    ghost text = { meaning_line };

    fn put<S: Sink>(&self, terms: &Terms<'_>, out: &mut S) -> Result<(), SinkFailed> {
        put_meaning(self, terms, out)
    }
}

/// Puts the lines of names one behind another.
pub fn put_meanings<S: Sink>(
    meanings: &[Meaning],
    terms: &Terms<'_>,
    out: &mut S,
) -> Result<(), SinkFailed>
    ensures ok { OnOk result
        (IsPut (flat_map (meaning_line (vocabulary terms.now)) meanings.now)
        (S.seen out.old).written (S.seen out.new).written) }
    ensures partly { OnErr result
        (IsPartlyPut (flat_map (meaning_line (vocabulary terms.now)) meanings.now)
        (S.seen out.old).written (S.seen out.new).written) }
    ensures failed { OnErr result (Rose (S.seen out.old).faults (S.seen out.new).faults) }
    ensures faults_grow { (S.seen out.old).faults ≤ (S.seen out.new).faults }
{
    put_all(meanings, terms, out)
}

/// Puts the line of a name.
pub fn put_meaning<S: Sink>(
    meaning: &Meaning,
    terms: &Terms<'_>,
    out: &mut S,
) -> Result<(), SinkFailed>
    ensures ok { OnOk result (IsPut (meaning_line (vocabulary terms.now) meaning.now)
        (S.seen out.old).written (S.seen out.new).written) }
    ensures partly { OnErr result (IsPartlyPut (meaning_line (vocabulary terms.now) meaning.now)
        (S.seen out.old).written (S.seen out.new).written) }
    ensures failed { OnErr result (Rose (S.seen out.old).faults (S.seen out.new).faults) }
    ensures faults_grow { (S.seen out.old).faults ≤ (S.seen out.new).faults }
{
    put_items(&[Item::Before(meaning.spot)], terms, out)?;
    put_meant(meaning.number, &meaning.of, terms, out)?;
    put_items(&[Item::Text("\n")], terms, out)
}

/// Puts a name and what it stands for.
fn put_meant<S: Sink>(
    number: u32,
    of: &Meant,
    terms: &Terms<'_>,
    out: &mut S,
) -> Result<(), SinkFailed>
    ensures ok { OnOk result (IsPut (meant_text (vocabulary terms.now) number of.now)
        (S.seen out.old).written (S.seen out.new).written) }
    ensures partly { OnErr result (IsPartlyPut (meant_text (vocabulary terms.now) number of.now)
        (S.seen out.old).written (S.seen out.new).written) }
    ensures failed { OnErr result (Rose (S.seen out.old).faults (S.seen out.new).faults) }
    ensures faults_grow { (S.seen out.old).faults ≤ (S.seen out.new).faults }
{
    let letter = first_letter(of);
    put_items(
        &[Item::Text(letter), Item::Number(number), Item::Text(" ")],
        terms,
        out,
    )?;
    put_sense(of, terms, out)
}

/// Gives the letter of the names that stand for the like.
fn first_letter(of: &Meant) -> &'static str
    ensures { result.now ≡ letter_of of.now }
{
    match of {
        Meant::Step(_) => "s",
        Meant::Atom(_) => "f",
        Meant::Monitor(_) => "m",
        Meant::Chain(_) => "e",
    }
}

/// Puts what a name stands for.
fn put_sense<S: Sink>(of: &Meant, terms: &Terms<'_>, out: &mut S) -> Result<(), SinkFailed>
    ensures ok { OnOk result (IsPut (sense_text (vocabulary terms.now) of.now)
        (S.seen out.old).written (S.seen out.new).written) }
    ensures partly { OnErr result (IsPartlyPut (sense_text (vocabulary terms.now) of.now)
        (S.seen out.old).written (S.seen out.new).written) }
    ensures failed { OnErr result (Rose (S.seen out.old).faults (S.seen out.new).faults) }
    ensures faults_grow { (S.seen out.old).faults ≤ (S.seen out.new).faults }
{
    match of {
        Meant::Step(placed) => put_placed(placed, terms, out),
        Meant::Atom(atom) => put_named(&terms.numbers.predicates, atom, terms, out),
        Meant::Monitor(subject) => put_subject(subject, terms, out),
        Meant::Chain(settling) => put_settling(settling, terms, out),
    }
}

/// Puts how far preferences are settled.
fn put_settling<S: Sink>(
    settling: &Settling,
    terms: &Terms<'_>,
    out: &mut S,
) -> Result<(), SinkFailed>
    ensures ok { OnOk result (IsPut (settling_text (vocabulary terms.now) settling.now)
        (S.seen out.old).written (S.seen out.new).written) }
    ensures partly { OnErr result
        (IsPartlyPut (settling_text (vocabulary terms.now) settling.now)
        (S.seen out.old).written (S.seen out.new).written) }
    ensures failed { OnErr result (Rose (S.seen out.old).faults (S.seen out.new).faults) }
    ensures faults_grow { (S.seen out.old).faults ≤ (S.seen out.new).faults }
{
    match settling {
        Settling::Next { name, bindings } => put_items(
            &[
                Item::Text("settled next: preference "),
                Item::Preference(*name),
                Item::Bindings(bindings),
            ],
            terms,
            out,
        ),
        Settling::Done => put_items(&[Item::Text("all preferences are settled")], terms, out),
    }
}
