//! Where something stands in a file.

ghost use Rattle.std.specs.Prelude.{◌≡◌, ◌≤◌, OnErr, OnOk};
ghost use Rattle.p3_base.specs.Outside.{IsPartlyPut, IsPut, Rose};
ghost use Rattle.p3_accounts.specs.Spots.{spot_before};
ghost use Rattle.p3_accounts.specs.Vocabularies.{file_name, vocabulary};

use crate::terms::{InputFile, Terms};
use p3_base::{Sink, SinkFailed};
use p3_reports::{Piece, put_pieces};

/// Where something stands in a file that is read; line and column are counted from 1.
#[derive(Clone, Copy, Debug, PartialEq, Eq)]
pub struct Spot {
    /// The file.
    pub file: InputFile,
    /// The line.
    pub line: u32,
    /// The byte of the line.
    pub column: u32,
}

/// Puts what a line begins with, where its place is known.
pub(crate) fn put_spot<S: Sink>(
    spot: &Option<Spot>,
    terms: &Terms<'_>,
    out: &mut S,
) -> Result<(), SinkFailed>
    ensures ok { OnOk result (IsPut (spot_before (vocabulary terms.now) spot.now)
        (S.seen out.old).written (S.seen out.new).written) }
    ensures partly { OnErr result (IsPartlyPut (spot_before (vocabulary terms.now) spot.now)
        (S.seen out.old).written (S.seen out.new).written) }
    ensures failed { OnErr result (Rose (S.seen out.old).faults (S.seen out.new).faults) }
    ensures faults_grow { (S.seen out.old).faults ≤ (S.seen out.new).faults }
{
    match spot {
        None => Ok(()),
        Some(spot) => put_pieces(
            &[
                Piece::Bytes(name_of(terms, spot.file)),
                Piece::Text(":"),
                Piece::Number(spot.line as u64),
                Piece::Text(":"),
                Piece::Number(spot.column as u64),
                Piece::Text(": "),
            ],
            out,
        ),
    }
}

/// Gives the name of a file, as it was given.
fn name_of<'a>(terms: &Terms<'a>, file: InputFile) -> &'a [u8]
    ensures { result.now ≡ file_name (vocabulary terms.now) file }
{
    match file {
        InputFile::Domain => terms.domain,
        InputFile::Problem => terms.problem,
        InputFile::Plan => terms.plan,
    }
}
