// What is kept of the open transactions, one a console.
ghost use Rattle.std.specs.Prelude.{◌≡◌, ◌≤◌, ◌++◌, Ok, Err, length, drop, replicate, if◌then◌else◌, nat_le, slice_set};
ghost use Rattle.certifier.specs.declared.LogRefusal.TheVariants.{Reads};
ghost use Rattle.certifier.specs.Marking.{no_track, track_in, overs_of, member, wrote, noted, notes, written};
ghost use Rattle.certifier.specs.Entries.{track_of};

use crate::few::Few;
use crate::{LogRefusal, Over};
use std::marker::Model;
use store::ConsoleId;

/// What is kept of an open transaction: the versions that it noted, and the records that it wrote.
// Kept: no Model, since a view that forgets the unused places has no inverse, which Copy needs.
#[derive(Clone, Copy)]
pub struct Track {
    pub(crate) noted: Few<u32, 64>,
    pub(crate) writes: Few<Over, 16>,
}

impl Track {
    /// Nothing noted and nothing written.
    pub fn new() -> Track
        ensures { track_of result ≡ no_track }
    {
        Track {
            noted: Few::new(0),
            writes: Few::new(Over { at: 0, version: 0 }),
        }
    }

    pub(crate) fn clear(&mut self)
        ensures { track_of self.new ≡ no_track }
    {
        self.noted.clear();
        self.writes.clear();
    }

    // Whether 16 records are written.
    pub(crate) fn is_full(&self) -> bool
        ensures { result ≡ nat_le 16 (length (track_of self.now).writes) }
    {
        self.writes.is_full()
    }

    // Notes the version, each once. Refused: 5, where 64 others are noted.
    pub(crate) fn note(&mut self, n: u32) -> Result<(), LogRefusal>
        ensures answer { result ≡ (if notes (track_of self.old) n then Ok tt else Err Reads) }
        ensures track { track_of self.new ≡ (if notes (track_of self.old) n then noted (track_of self.old) n else track_of self.old) }
    {
        if has(self.noted.as_slice(), n) {
            return Ok(());
        }
        if self.noted.is_full() {
            return Err(LogRefusal::Reads);
        }
        self.noted.push(n);
        Ok(())
    }

    /// The versions that the transaction noted, as noted.
    pub fn noted(&self) -> &[u32]
        ensures { result.now ≡ (track_of self.now).noted }
    {
        self.noted.as_slice()
    }

    /// Puts the versions that the transaction overwrites, as first written, at the front of the caller's list, leaves its
    /// later places alone, and answers how many there are.
    pub fn overwritten(&self, list: &mut [u32; 16]) -> usize
        ensures count { result ≡ length (overs_of (track_of self.now).writes) }
        ensures list { list.new ≡ overs_of (track_of self.now).writes ++ drop (length (overs_of (track_of self.now).writes)) list.old }
    {
        self.fill(list)
    }

    // Puts the numbers of the overwritten versions at the front of a list that has room for them, and answers how many.
    // Kept: it fills the caller's list, since no memory is taken after opening; `iter_mut` in a `zip` tells nothing of the list afterwards.
    pub(crate) fn fill(&self, list: &mut [u32]) -> usize
        requires { length (track_of self.now).writes ≤ length list.old }
        ensures count { result ≡ length (track_of self.now).writes }
        ensures list { list.new ≡ overs_of (track_of self.now).writes ++ drop (length (track_of self.now).writes) list.old }
    {
        let writes = self.writes.as_slice();
        for (i, write) in writes.iter().enumerate() {
            list[i] = write.version;
        }
        writes.len()
    }

    pub(crate) fn write(&mut self, at: u32, version: u32)
        ensures { track_of self.new ≡ written (track_of self.old) at version }
    {
        if !has_record(self.writes.as_slice(), at) && !self.writes.is_full() {
            self.writes.push(Over { at, version });
        }
    }
}

// Whether the number is in the list.
// Kept: all of it is read, several numbers at once: with `contains` a day with 64 reads takes 15 in a hundred longer, with `fold` 4.
fn has(list: &[u32], n: u32) -> bool
    ensures { result ≡ member n list.now }
{
    let mut found = false;
    for x in list {
        found |= *x == n;
    }
    found
}

// Whether the record is one of those written.
fn has_record(list: &[Over], at: u32) -> bool
    ensures { result ≡ wrote at list.now }
{
    list.iter().any(|write| write.at == at)
}

// The tracks of the sixteen consoles.
#[derive(Drop)]
pub(crate) struct Tracks {
    list: [Track; 16],
}

impl Model for Tracks {
    ghost use Rattle.std.specs.Prelude.{List, map};
    ghost use Rattle.certifier.specs.Marking.{Track};
    ghost use Rattle.certifier.specs.Entries.{track_of};

    ghost Value = { List Track };

    ghost view = { λ ts. map track_of ts.list };
}

impl Tracks {
    pub(crate) fn new() -> Tracks
        ensures { result ≡ replicate 16 no_track }
    {
        Tracks {
            list: [Track::new(); 16],
        }
    }

    pub(crate) fn at(&self, console: ConsoleId) -> &Track
        ensures { track_of result.now ≡ track_in self.now console.number }
    {
        &self.list[console.number as usize]
    }

    pub(crate) fn clear(&mut self, console: ConsoleId)
        ensures { self.new ≡ slice_set self.old console.number no_track }
    {
        let track = &mut self.list[console.number as usize];
        track.clear();
    }

    // Notes the version at the console. Refused: 5.
    pub(crate) fn note(&mut self, console: ConsoleId, n: u32) -> Result<(), LogRefusal>
        ensures answer { result ≡ (if notes (track_in self.old console.number) n then Ok tt else Err Reads) }
        ensures track { self.new ≡ (if notes (track_in self.old console.number) n then slice_set self.old console.number (noted (track_in self.old console.number) n) else self.old) }
    {
        let track = &mut self.list[console.number as usize];
        track.note(n)
    }

    pub(crate) fn write(&mut self, console: ConsoleId, at: u32, version: u32)
        ensures { self.new ≡ slice_set self.old console.number (written (track_in self.old console.number) at version) }
    {
        let track = &mut self.list[console.number as usize];
        track.write(at, version);
    }
}
