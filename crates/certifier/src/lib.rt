// The certifier, the Serial Safety Net above any store: the types of its calls and answers.
#![tactic(auto)]

ghost use Rattle.std.specs.Prelude.{◌≡◌};
ghost use Rattle.certifier.specs.Refusals.{code_of};
ghost use Rattle.certifier.specs.Marking.{new_mark};

use store::{Code, Layer, Refusal, Version};

mod calls;
mod entry;
mod few;
mod log;
mod marks;
mod opening;
mod queries;
mod ranks;
mod track;

pub use crate::entry::DayEntry;
pub use crate::log::Log;
pub use crate::track::Track;

/// Why a log refuses a call.
#[derive(Clone, Copy, Debug, PartialEq, Eq)]
pub enum LogRefusal {
    /// the console is above 15
    NoConsole,
    /// the log has no such record
    NoRecord,
    /// the console has nothing open
    Shut,
    /// the console is already open
    Open,
    /// it would be the 65th version to note
    Reads,
    /// it would be the 17th record to write
    Writes,
    /// the clock is at 4,000
    DayFull,
    /// the high mark is not below the low mark; the transaction is dropped
    Unsafe,
    /// there is no version of that number
    NoVersion,
    /// the caller's list is shorter than the clock
    ShortList,
    /// a refusal of the store, passed up
    Store(Refusal),
}

impl LogRefusal {
    /// The number and the layer of the refusal.
    pub fn code(self) -> Code
        ensures { result ≡ code_of self }
    {
        let number = match self {
            LogRefusal::NoConsole => 1,
            LogRefusal::NoRecord => 2,
            LogRefusal::Shut => 3,
            LogRefusal::Open => 4,
            LogRefusal::Reads => 5,
            LogRefusal::Writes => 6,
            LogRefusal::DayFull => 10,
            LogRefusal::Unsafe => 11,
            LogRefusal::NoVersion => 13,
            LogRefusal::ShortList => 14,
            LogRefusal::Store(refusal) => return refusal.code(),
        };
        Code {
            number,
            layer: Layer::Certifier,
        }
    }
}

/// A call of a run.
#[derive(Clone, Copy)]
pub enum Call<E> {
    /// at a console
    Begin(u32),
    /// at a console, of a record
    Read(u32, u32),
    /// at a console, to a record, of an entry
    Write(u32, u32, E),
    /// at a console
    Commit(u32),
    /// at a console
    Drop(u32),
}

/// What an accepted call answers.
// Kept: the two cases of a read side by side and no `Seen` within, whose tag of its own makes every answer longer.
#[derive(Clone, Copy)]
pub enum Accepted<E> {
    /// the begin stamp
    Begun(u16),
    /// the console's own pending entry
    Own(E),
    /// a committed version
    Saw(Version<E>),
    /// the number of the version that the write will overwrite
    Overwrites(u32),
    Granted(Grant),
    Dropped,
}

/// What a call is answered.
pub type Answer<E> = Result<Accepted<E>, LogRefusal>;

/// What a granted commit answers: its stamp, its low mark and its high mark.
#[derive(Clone, Copy)]
pub struct Grant {
    pub stamp: u16,
    pub low: u16,
    pub high: u16,
}

/// What is kept of a version: its stamp, its high mark, and its low mark once it is overwritten.
#[derive(Clone, Copy)]
pub struct Mark {
    pub stamp: u16,
    pub high: u16,
    pub low: Option<u16>,
}

impl Mark {
    // The marks of a version that the commit of that stamp makes.
    pub(crate) const fn new(stamp: u16) -> Mark
        ensures { result ≡ new_mark stamp }
    {
        Mark {
            stamp,
            high: stamp,
            low: None,
        }
    }
}

// A record that a transaction wrote, and the version that it overwrites there.
#[derive(Clone, Copy)]
pub(crate) struct Over {
    pub(crate) at: u32,
    pub(crate) version: u32,
}
