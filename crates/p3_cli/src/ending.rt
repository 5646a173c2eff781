//! How a run ends, and what is put then.

ghost use Rattle.std.specs.Prelude.{◌≡◌, ◌≤◌, OnOk, OnErr};
ghost use Rattle.p3_base.specs.Outside.{IsPartlyPut, Rose, with_put};

use crate::status::{DONE, INVALID, OUT_OF_MEMORY, REFUSED, UNREAD, UNWRITTEN, USAGE};
use p3_base::{NoMemory, Role, Sink, SinkFailed};
use p3_reports::{
    Fault, Rejection, Report, put_fault, put_no_memory, put_read_fault, put_rejection, put_report,
    put_too_long, put_usage, put_write_fault,
};

/// How a run ends.
#[derive(Debug, Drop)]
pub enum Ending {
    /// Everything was done: what is reported.
    Done(Report),
    /// What was read is refused: why and where.
    Refused(Rejection),
    /// A plan is not valid: its first fault.
    Invalid(Fault),
    /// An input has more bytes than the limit.
    TooLong(Role),
    /// An input was not read.
    ReadFailed(Role),
    /// An output was not written.
    WriteFailed(Role),
    /// Memory is wanting.
    OutOfMemory,
    /// The words have none of the listed shapes.
    Usage,
}

impl From<NoMemory> for Ending {
    ghost use Rattle.p3_cli.specs.declared.ending.Ending.TheVariants.{OutOfMemory};

    ghost from_gives = { λ _ ending. ending ≡ OutOfMemory };

    fn from(_error: NoMemory) -> Ending {
        Ending::OutOfMemory
    }
}

impl Ending {
    ghost use Rattle.p3_cli.specs.Ending.{ending_of, lines_of, status_of};

    /// Gives the status of the process, where the lines can be put.
    pub(crate) fn status(&self) -> u8
        ensures { result ≡ status_of (ending_of self.now) }
    {
        match self {
            Ending::Done(_) => DONE,
            Ending::Refused(_) | Ending::TooLong(_) => REFUSED,
            Ending::Invalid(_) => INVALID,
            Ending::ReadFailed(_) => UNREAD,
            Ending::WriteFailed(_) => UNWRITTEN,
            Ending::OutOfMemory => OUT_OF_MEMORY,
            Ending::Usage => USAGE,
        }
    }

    /// Puts the lines. It takes no memory. After a failure a first part of them is there.
    pub(crate) fn put<S: Sink>(&self, out: &mut S) -> Result<(), SinkFailed>
        ensures ok { OnOk result ((S.seen out.new).written
            ≡ with_put (lines_of (ending_of self.now)) (S.seen out.old).written) }
        ensures partly { OnErr result (IsPartlyPut (lines_of (ending_of self.now))
            (S.seen out.old).written (S.seen out.new).written) }
        ensures failed { OnErr result (Rose (S.seen out.old).faults (S.seen out.new).faults) }
        ensures faults_grow { (S.seen out.old).faults ≤ (S.seen out.new).faults }
    {
        match self {
            Ending::Done(report) => put_report(report, out),
            Ending::Refused(rejection) => put_rejection(rejection, out),
            Ending::Invalid(fault) => put_fault(*fault, out),
            Ending::TooLong(role) => put_too_long(*role, out),
            Ending::ReadFailed(role) => put_read_fault(*role, out),
            Ending::WriteFailed(role) => put_write_fault(*role, out),
            Ending::OutOfMemory => put_no_memory(out),
            Ending::Usage => put_usage(out),
        }
    }
}
