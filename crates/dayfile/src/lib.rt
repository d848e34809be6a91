// Day files: the format, its refusals, and the reader.
#![tactic(auto)]

mod file;
mod read;
mod spot;
mod versions;

ghost use Rattle.std.specs.Prelude.{◌≡◌};
ghost use Rattle.dayfile.specs.Refusals.{code_of};
ghost use Rattle.dayfile.specs.Format.{head_fits};
ghost use Rattle.dayfile.specs.Said.{said, Gives};

pub use file::{DayFile, Entries};
pub use read::unpack;
pub use spot::Spot;
use store::{Code, Layer};
pub use versions::{Pairs, VersionList};

/// Why bytes are not read as a day file, or a day file is not written.
#[derive(Clone, Copy, Debug, PartialEq, Eq)]
pub enum FileRefusal {
    /// there are fewer than 10 bytes
    Short,
    /// the trailer does not begin with its mark
    Mark,
    /// records, count or length of the trailer is out of range
    Pointer,
    /// a field of an entry is out of range, or the entries do not fill their length exactly
    Entry,
    /// the entry and the trailer do not fit, or it is the 4,001st entry
    Full,
}

impl FileRefusal {
    /// The number and the layer of the refusal.
    pub fn code(self) -> Code
        ensures { result ≡ code_of self }
    {
        let number = match self {
            FileRefusal::Short => 30,
            FileRefusal::Mark => 31,
            FileRefusal::Pointer => 32,
            FileRefusal::Entry => 33,
            FileRefusal::Full => 34,
        };
        Code {
            number,
            layer: Layer::File,
        }
    }
}

/// One entry of a file. Its versions are pairs of the file's bytes: `noted` and `overwritten` give their numbers.
#[derive(Clone, Copy)]
pub struct Entry<'a> {
    pub console: u8,
    pub low: u16,
    pub reads: &'a [u8],
    pub writes: &'a [u8],
}

/// Whether the numbers in the head of the entry at a place are in range: its console, how many versions
/// it noted and overwrote, and its low mark.
pub fn head_fits(console: u32, reads: usize, writes: usize, low: u32, place: u32) -> bool
    ensures { result ≡ head_fits place console reads writes low }
{
    console < 16 && reads <= 64 && writes <= 16 && 1 <= low && low <= place
}

impl<'a> Entry<'a> {
    /// The versions that it noted.
    pub fn noted(&self) -> Pairs<'a>
        ensures { Gives result (said self.now).reads }
    {
        Pairs::of(self.reads)
    }

    /// The versions that it overwrote.
    pub fn overwritten(&self) -> Pairs<'a>
        ensures { Gives result (said self.now).writes }
    {
        Pairs::of(self.writes)
    }
}
