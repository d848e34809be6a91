// What a line says: a call, and what it was answered.
ghost use Rattle.std.specs.Prelude.{◌≡◌, Some};
ghost use Rattle.store.specs.Refusals as store;
ghost use Rattle.certifier.specs.Refusals as certifier;
ghost use Rattle.edges.specs.declared.say.Said.TheVariants as said;

use certifier::{Accepted, Call, Grant, LogRefusal, Mark};
use std::{fmt, io};
use store::{Code, OpenFault, Refusal, Seen, Version};

/// How large a table is to be.
#[derive(Clone, Copy)]
pub(crate) struct Size {
    pub(crate) records: u32,
    pub(crate) places: u32,
}

impl Size {
    pub(crate) fn new(records: u32, places: u32) -> Size {
        Size { records, places }
    }
}

impl fmt::Display for Size {
    fn fmt<W: fmt::Write>(&self, f: &mut fmt::Formatter<W>) -> fmt::Result {
        let Size { records, places } = self;
        write!(f, "records {records}, places {places}")
    }
}

/// What an accepted call says.
#[derive(Clone, Copy)]
pub(crate) enum Said {
    Done,
    Number(u32),
    Seen(Seen<u32>),
    Granted(Grant),
    Marked(Mark),
}

impl From<()> for Said {
    ghost from_gives = { λ _ r. r ≡ said.Done };

    fn from(_done: ()) -> Said {
        Said::Done
    }
}

impl From<u16> for Said {
    ghost from_gives = { λ n r. r ≡ said.Number n };

    fn from(number: u16) -> Said {
        Said::Number(u32::from(number))
    }
}

impl From<u32> for Said {
    ghost from_gives = { λ n r. r ≡ said.Number n };

    fn from(number: u32) -> Said {
        Said::Number(number)
    }
}

impl From<Seen<u32>> for Said {
    ghost from_gives = { λ x r. r ≡ said.Seen x };

    fn from(seen: Seen<u32>) -> Said {
        Said::Seen(seen)
    }
}

impl From<Mark> for Said {
    ghost from_gives = { λ m r. r ≡ said.Marked m };

    fn from(mark: Mark) -> Said {
        Said::Marked(mark)
    }
}

impl From<Accepted<u32>> for Said {
    fn from(accepted: Accepted<u32>) -> Said {
        match accepted {
            Accepted::Begun(stamp) => stamp.into(),
            Accepted::Own(entry) => Seen::Own(entry).into(),
            Accepted::Saw(version) => Seen::Committed(version).into(),
            Accepted::Overwrites(number) => number.into(),
            Accepted::Granted(grant) => Said::Granted(grant),
            Accepted::Dropped => Said::Done,
        }
    }
}

impl fmt::Display for Said {
    fn fmt<W: fmt::Write>(&self, f: &mut fmt::Formatter<W>) -> fmt::Result {
        match *self {
            Said::Done => write!(f, "ok"),
            Said::Number(n) => write!(f, "ok {n}"),
            Said::Seen(Seen::Own(entry)) => write!(f, "ok own entry {entry}"),
            Said::Seen(Seen::Committed(version)) => {
                let Version {
                    number,
                    stamp,
                    entry,
                } = version;
                write!(f, "ok version {number} stamp {stamp} entry {entry}")
            }
            Said::Granted(Grant { stamp, low, high }) => {
                write!(f, "ok stamp {stamp} low {low} high {high}")
            }
            Said::Marked(Mark { stamp, high, low }) => {
                write!(f, "ok stamp {stamp} high {high} low ")?;
                match low {
                    Some(low) => write!(f, "{low}"),
                    None => write!(f, "-"),
                }
            }
        }
    }
}

/// Why a call or an opening is not accepted: number and layer, or none for want of memory.
#[derive(Clone, Copy)]
pub(crate) struct Fault(Option<Code>);

// Kept: an impl for each refusal, since a macro of the repository may write none.
impl From<Refusal> for Fault {
    ghost from_gives = { λ x r. r.0 ≡ Some (store.code_of x) };

    fn from(refusal: Refusal) -> Fault {
        Fault(Some(refusal.code()))
    }
}

impl From<LogRefusal> for Fault {
    ghost from_gives = { λ x r. r.0 ≡ Some (certifier.code_of x) };

    fn from(refusal: LogRefusal) -> Fault {
        Fault(Some(refusal.code()))
    }
}

impl From<OpenFault> for Fault {
    ghost from_gives = { λ x r. r.0 ≡ store.open_code x };

    fn from(fault: OpenFault) -> Fault {
        Fault(fault.code())
    }
}

impl fmt::Display for Fault {
    fn fmt<W: fmt::Write>(&self, f: &mut fmt::Formatter<W>) -> fmt::Result {
        match self.0 {
            Some(Code { number, layer }) => write!(f, "no {number} {layer}"),
            None => write!(f, "no memory"),
        }
    }
}

/// An answer, as a line ends with it.
#[derive(Clone, Copy)]
pub(crate) struct Answered(pub(crate) Result<Said, Fault>);

impl<T: Into<Said>, E: Into<Fault>> From<Result<T, E>> for Answered {
    fn from(answer: Result<T, E>) -> Answered {
        Answered(answer.map(|said| said.into()).map_err(|fault| fault.into()))
    }
}

impl fmt::Display for Answered {
    fn fmt<W: fmt::Write>(&self, f: &mut fmt::Formatter<W>) -> fmt::Result {
        match self.0 {
            Ok(said) => write!(f, "{said}"),
            Err(fault) => write!(f, "{fault}"),
        }
    }
}

/// A call, as a line has it.
#[derive(Clone, Copy)]
pub(crate) struct Asked(pub(crate) Call<u32>);

impl fmt::Display for Asked {
    fn fmt<W: fmt::Write>(&self, f: &mut fmt::Formatter<W>) -> fmt::Result {
        match self.0 {
            Call::Begin(console) => write!(f, "begin {console}"),
            Call::Read(console, at) => write!(f, "read {console} {at}"),
            Call::Write(console, at, entry) => write!(f, "write {console} {at} {entry}"),
            Call::Commit(console) => write!(f, "commit {console}"),
            Call::Drop(console) => write!(f, "drop {console}"),
        }
    }
}

/// Prints a call to `name`, with what it was answered.
pub(crate) fn tell(
    rt: HostRuntime,
    name: &str,
    call: Call<u32>,
    answered: Answered,
) -> io::Result<()> {
    let asked = Asked(call);
    println!(rt; "{name} {asked}: {answered}")
}
