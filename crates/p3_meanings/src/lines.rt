//! The line of a name.

ghost use Rattle.std.specs.Prelude.{◌≤◌, IfErr, OnErr, OnOk};
ghost use Rattle.p3_base.specs.Outside.{IsPartlyPut, IsPut, Rose};
ghost use Rattle.p3_accounts.specs.Meanings.{meaning_line};
ghost use Rattle.p3_accounts.specs.Vocabularies.{vocabulary};
ghost use Rattle.p3_meanings.specs.Names.{IsFailOf};

use crate::error::NamesFail;
use p3_accounts::{Meaning, Terms, put_meaning};
use p3_base::{Sink, SinkFailed};
use p3_reports::StackSink;

/// As many bytes as the lines of most names have at most.
const LINE_ROOM: usize = 1024;

/// Puts the line of a name.
pub(crate) fn put_line<S: Sink>(
    meaning: &Meaning,
    terms: &Terms<'_>,
    out: &mut S,
) -> Result<(), NamesFail>
    ensures ok { OnOk result (IsPut (meaning_line (vocabulary terms.now) meaning.now)
        (S.seen out.old).written (S.seen out.new).written) }
    ensures partly { OnErr result (IsPartlyPut (meaning_line (vocabulary terms.now) meaning.now)
        (S.seen out.old).written (S.seen out.new).written) }
    ensures failed { IfErr result (IsFailOf (S.seen out.old).faults (S.seen out.new).faults) }
    ensures faults_grow { (S.seen out.old).faults ≤ (S.seen out.new).faults }
{
    match put_at_once(meaning, terms, out) {
        Ok(()) => Ok(()),
        Err(SinkFailed) => Err(NamesFail::SinkFailed),
    }
}

/// Puts the line of a name. Where it has no more bytes than most, it is put at once.
fn put_at_once<S: Sink>(meaning: &Meaning, terms: &Terms<'_>, out: &mut S) -> Result<(), SinkFailed>
    ensures ok { OnOk result (IsPut (meaning_line (vocabulary terms.now) meaning.now)
        (S.seen out.old).written (S.seen out.new).written) }
    ensures partly { OnErr result (IsPartlyPut (meaning_line (vocabulary terms.now) meaning.now)
        (S.seen out.old).written (S.seen out.new).written) }
    ensures failed { OnErr result (Rose (S.seen out.old).faults (S.seen out.new).faults) }
    ensures faults_grow { (S.seen out.old).faults ≤ (S.seen out.new).faults }
{
    let mut room = StackSink::<LINE_ROOM>::new();
    match put_meaning(meaning, terms, &mut room) {
        Ok(()) => out.put(room.bytes()),
        Err(SinkFailed) => put_meaning(meaning, terms, out),
    }
}
