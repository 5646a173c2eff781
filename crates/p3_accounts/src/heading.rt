//! Headings of accounts, with the states that show what they say.

ghost use Rattle.std.specs.Prelude.{◌≤◌, OnErr, OnOk};
ghost use Rattle.p3_base.specs.Outside.{IsPartlyPut, IsPut, Rose};
ghost use Rattle.p3_accounts.specs.Accounts.{heading_line, heading_text};
ghost use Rattle.p3_accounts.specs.Vocabularies.{vocabulary};

use crate::item::{Item, Printed, put_items};
use crate::spot::Spot;
use crate::state::{Shown, put_shown};
use crate::subject::{Subject, put_said, put_subject};
use crate::terms::Terms;
use p3_base::{Sink, SinkFailed};
use p3_reports::StackSink;

/// As many bytes as most headings have at most.
const HEADING_ROOM: usize = 4096;

/// One reason why a plan is not valid or costs what it costs.
#[derive(Debug, Drop)]
pub struct Heading {
    /// Where it stands, where that is known.
    pub spot: Option<Spot>,
    /// What it is of.
    pub subject: Subject,
    /// Where it shows.
    pub shown: Shown,
}

impl Printed for Heading {
    ghost use Rattle.p3_accounts.specs.Accounts.{heading_text};

    ghost text = { heading_text };

    fn put<S: Sink>(&self, terms: &Terms<'_>, out: &mut S) -> Result<(), SinkFailed> {
        put_heading(self, terms, out)
    }
}

/// Puts a heading, and the states that show it. Where they have no more bytes than most headings,
/// they are put at once.
pub fn put_heading<S: Sink>(
    heading: &Heading,
    terms: &Terms<'_>,
    out: &mut S,
) -> Result<(), SinkFailed>
    ensures ok { OnOk result (IsPut (heading_text (vocabulary terms.now) heading.now)
        (S.seen out.old).written (S.seen out.new).written) }
    ensures partly { OnErr result (IsPartlyPut (heading_text (vocabulary terms.now) heading.now)
        (S.seen out.old).written (S.seen out.new).written) }
    ensures failed { OnErr result (Rose (S.seen out.old).faults (S.seen out.new).faults) }
    ensures faults_grow { (S.seen out.old).faults ≤ (S.seen out.new).faults }
{
    let mut room = StackSink::<HEADING_ROOM>::new();
    match put_lines(heading, terms, &mut room) {
        Ok(()) => out.put(room.bytes()),
        Err(SinkFailed) => put_lines(heading, terms, out),
    }
}

/// Puts a heading, and the states that show it, line by line.
fn put_lines<S: Sink>(heading: &Heading, terms: &Terms<'_>, out: &mut S) -> Result<(), SinkFailed>
    ensures ok { OnOk result (IsPut (heading_text (vocabulary terms.now) heading.now)
        (S.seen out.old).written (S.seen out.new).written) }
    ensures partly { OnErr result (IsPartlyPut (heading_text (vocabulary terms.now) heading.now)
        (S.seen out.old).written (S.seen out.new).written) }
    ensures failed { OnErr result (Rose (S.seen out.old).faults (S.seen out.new).faults) }
    ensures faults_grow { (S.seen out.old).faults ≤ (S.seen out.new).faults }
{
    put_heading_line(heading, terms, out)?;
    put_shown(&heading.shown, terms, out)
}

/// Puts the line of a heading.
fn put_heading_line<S: Sink>(
    heading: &Heading,
    terms: &Terms<'_>,
    out: &mut S,
) -> Result<(), SinkFailed>
    ensures ok { OnOk result (IsPut (heading_line (vocabulary terms.now) heading.now)
        (S.seen out.old).written (S.seen out.new).written) }
    ensures partly { OnErr result (IsPartlyPut (heading_line (vocabulary terms.now) heading.now)
        (S.seen out.old).written (S.seen out.new).written) }
    ensures failed { OnErr result (Rose (S.seen out.old).faults (S.seen out.new).faults) }
    ensures faults_grow { (S.seen out.old).faults ≤ (S.seen out.new).faults }
{
    put_items(&[Item::Before(heading.spot)], terms, out)?;
    put_subject(&heading.subject, terms, out)?;
    put_said(&heading.subject, terms, out)
}
