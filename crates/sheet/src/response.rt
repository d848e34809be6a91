// What a line is answered.
ghost use Rattle.std.specs.Prelude.{◌≡◌, Some, Ok};
ghost use Rattle.certifier.specs.Logs.{accepted_reply, reply_of};
ghost use Rattle.sheet.specs.Answers.{replied};
ghost use Rattle.sheet.specs.Faults.{told};
ghost use Rattle.sheet.specs.Printing.{success_text};

use crate::fault::Fault;
use certifier::{Accepted, Answer, Grant};
use std::fmt;
use store::Version;

/// What a line prints that is not refused.
#[derive(Clone, Copy)]
pub(crate) enum Success {
    /// nothing more is to say
    Done,
    /// a begin stamp, or the number of a version that will be overwritten
    One(u32),
    /// what a commit is granted
    Granted(Grant),
    /// a version that was read
    Version(Version<u32>),
    /// the console's own entry
    Own(u32),
}

/// What a line is answered.
pub(crate) type Response = Result<Success, Fault>;

impl fmt::Display for Success {
    ghost output = { λ x. Some (success_text x) };

    fn fmt<W: fmt::Write>(&self, f: &mut fmt::Formatter<W>) -> fmt::Result {
        match self {
            Success::Done => write!(f, "ok"),
            Success::One(n) => write!(f, "ok {n}"),
            Success::Granted(Grant { stamp, low, high }) => write!(f, "ok {stamp} {low} {high}"),
            Success::Version(Version { number, entry, .. }) => write!(f, "v {number} {entry}"),
            Success::Own(entry) => write!(f, "own {entry}"),
        }
    }
}

impl From<Accepted<u32>> for Success {
    ghost from_gives = { λ a x. Ok x ≡ replied (accepted_reply a) };

    fn from(accepted: Accepted<u32>) -> Success {
        match accepted {
            Accepted::Begun(stamp) => Success::One(u32::from(stamp)),
            Accepted::Own(entry) => Success::Own(entry),
            Accepted::Saw(version) => Success::Version(version),
            Accepted::Overwrites(version) => Success::One(version),
            Accepted::Granted(grant) => Success::Granted(grant),
            Accepted::Dropped => Success::Done,
        }
    }
}

/// What a line is answered whose call the log answered so.
pub(crate) fn response_to(answer: Answer<u32>) -> Response
    ensures { told result ≡ replied (reply_of answer) }
{
    Ok(answer?.into())
}
