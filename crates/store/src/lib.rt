// The store of versions: its types, its refusals, its interface.
#![tactic(auto)]

ghost use Rattle.std.specs.Prelude.{◌≡◌, ℕ, Some};
ghost use Rattle.store.specs.declared.OpenFault.TheVariants.{Memory};
ghost use Rattle.store.specs.Meaning.{State, Rules, Inside, begin_of, read_of, read_answer, write_of, commit_of, drop_of, clock_of, size_of, Opens};
ghost use Rattle.store.specs.Refusals.{code_of, open_code, answer_of};
ghost use Rattle.store.specs.Layers.{layer_text};

use std::alloc::{AllocError, Global};
use std::fmt;

pub mod kind;
mod size;

pub use crate::size::{ConsoleId, TableSize};

/// The most commits of a day.
pub const DAY: u16 = 4000;

/// The most records of a table.
pub const RECORDS: u32 = 256;

/// The most places of a table.
pub const PLACES: u32 = 2048;

/// One version of a record: its number, the stamp of the commit that made it, and its entry.
#[derive(Clone, Copy)]
pub struct Version<E> {
    pub number: u32,
    pub stamp: u16,
    pub entry: E,
}

/// An entry that is written and not committed: its record, and what is written there.
#[derive(Clone, Copy)]
pub struct Pending<E> {
    pub at: u32,
    pub entry: E,
}

// Kept: an enum and no Result, since both cases are answers and neither is a lack.
/// What a read answers: the console's own pending entry, or a committed version.
#[derive(Clone, Copy)]
pub enum Seen<E> {
    Own(E),
    Committed(Version<E>),
}

/// The layer that a refusal comes from.
#[derive(Clone, Copy, Debug, PartialEq, Eq)]
pub enum Layer {
    Store,
    Certifier,
    Opening,
    Card,
    Sheet,
    File,
}

impl fmt::Display for Layer {
    ghost output = { λ l. Some (layer_text l) };

    fn fmt<W: fmt::Write>(&self, f: &mut fmt::Formatter<W>) -> fmt::Result {
        f.write_str(match self {
            Layer::Store => "store",
            Layer::Certifier => "certifier",
            Layer::Opening => "opening",
            Layer::Card => "card",
            Layer::Sheet => "sheet",
            Layer::File => "file",
        })
    }
}

/// A refusal as the table of refusals has it: its number, and the layer that it comes from.
#[derive(Clone, Copy, Debug, PartialEq, Eq)]
pub struct Code {
    pub number: u32,
    pub layer: Layer,
}

/// Why a store refuses a call.
#[derive(Clone, Copy, Debug, PartialEq, Eq)]
pub enum Refusal {
    /// the console is above 15
    NoConsole,
    /// the store has no such record
    NoRecord,
    /// the console has nothing open
    Shut,
    /// the console is already open
    Open,
    /// another console's entry is pending there
    Held,
    /// the write rule says no
    Stale,
    /// versions and pending entries fill the table
    NoRoom,
    /// the clock is at 4,000
    DayFull,
}

impl Refusal {
    /// The number and the layer of the refusal.
    pub fn code(self) -> Code
        ensures { result ≡ code_of self }
    {
        let number = match self {
            Refusal::NoConsole => 1,
            Refusal::NoRecord => 2,
            Refusal::Shut => 3,
            Refusal::Open => 4,
            Refusal::Held => 7,
            Refusal::Stale => 8,
            Refusal::NoRoom => 9,
            Refusal::DayFull => 10,
        };
        Code {
            number,
            layer: Layer::Store,
        }
    }
}

/// Why a store is not opened.
#[derive(Clone, Copy, Debug, PartialEq, Eq)]
pub enum OpenFault {
    /// the number of records or of places is outside its range
    Table,
    /// there is no memory for it
    Memory,
}

impl OpenFault {
    /// The number and the layer of the refusal; want of memory has none.
    pub fn code(self) -> Option<Code>
        ensures { result ≡ open_code self }
    {
        match self {
            OpenFault::Table => Some(Code {
                number: 12,
                layer: Layer::Opening,
            }),
            OpenFault::Memory => None,
        }
    }
}

impl From<AllocError> for OpenFault {
    ghost from_gives = { λ _ r. r ≡ Memory };

    fn from(_e: AllocError) -> OpenFault {
        OpenFault::Memory
    }
}

/// A store of versions. It is known by its two rules and by the state that it stands for; each call is one equation
/// between its answer, the state before and the state after. A refused call changes nothing.
pub trait Store<E>: Drop {
    ghost rules: { Rules };

    ghost state: { Self → State E };

    /// Opens a store of `size` records, each at the entry `first`, with `room` places for versions. It takes all its
    /// memory here. Refused: 12 where `size` is not 1 to 256 or `room` not `size` to 2,048; want of memory.
    // Kept: plain numbers, since any may be asked for, and those out of range are refused; a `TableSize` is what was checked.
    fn open(heap: Global, size: u32, room: u32, first: E) -> Result<Self, OpenFault>
        ensures { Opens state size room first result };

    /// Opens the console, with the clock as its begin stamp, and answers that stamp. Refused: 1, 4.
    fn begin(&mut self, console: u32) -> Result<u16, Refusal>
        ensures { (answer_of result, state self.new) ≡ begin_of (state self.old) console };

    /// The console's own pending entry at the record, or else the version that the read rule shows it. Refused: 1, 3, 2.
    fn read(&self, console: u32, at: u32) -> Result<Seen<E>, Refusal>
        ensures { read_answer result ≡ read_of rules (state self.now) console at };

    /// Makes an entry pending, and answers the number of the record's newest version, which it will overwrite. A second
    /// write to a record replaces the first in its place and meets none of 7, 8 and 9. Refused: 1, 3, 2, 7, 8, 9.
    fn write(&mut self, console: u32, at: u32, entry: E) -> Result<u32, Refusal>
        ensures { (answer_of result, state self.new) ≡ write_of rules (state self.old) console at entry };

    /// Makes the pending entries, by first write, the newest versions of their records, with the clock, one later, as
    /// stamp and the next unused numbers; shuts the console and answers the clock. Refused: 1, 3, 10.
    fn commit(&mut self, console: u32) -> Result<u16, Refusal>
        ensures { (answer_of result, state self.new) ≡ commit_of (state self.old) console };

    /// Forgets the pending entries and shuts the console. Refused: 1, 3.
    fn drop(&mut self, console: u32) -> Result<(), Refusal>
        ensures { (answer_of result, state self.new) ≡ drop_of (state self.old) console };

    /// How many commits there were.
    fn clock(&self) -> u16
        ensures { result ≡ clock_of (state self.now) };

    /// How many records there are.
    fn size(&self) -> u32
        ensures { result ≡ size_of (state self.now) };

    ghost inside: { Inside rules };
}
