// What a log only tells.
ghost use Rattle.std.specs.Prelude.{◌≡◌};
ghost use Rattle.store.specs.Meaning.{clock_of, size_of};
ghost use Rattle.certifier.specs.Entries.{track_of};
ghost use Rattle.store.specs.Refusals.{answer_by};
ghost use Rattle.certifier.specs.Refusals.{code_of};
ghost use Rattle.certifier.specs.Meaning.{marks_of, noted_of, order_of, overwritten_of, track_told};
ghost use Rattle.certifier.specs.Logs.{log_state, answer_of};

use crate::log::Log;
use crate::track::Track;
use crate::{LogRefusal, Mark};
use store::{ConsoleId, Store};

impl<S: Store<E>, E: Copy> Log<S, E> {
    /// How many commits there were.
    pub fn clock(&self) -> u16
        ensures { result ≡ clock_of (log_state S.Store.state self.now).store }
    {
        self.store.clock()
    }

    /// How many records there are.
    pub fn size(&self) -> u32
        ensures { result ≡ size_of (log_state S.Store.state self.now).store }
    {
        self.store.size()
    }

    /// The stamp, the high mark and the low mark, if it has one, of the version of that number. Refused: 13.
    pub fn marks(&self, version: u32) -> Result<Mark, LogRefusal>
        ensures { answer_of result ≡ marks_of (log_state S.Store.state self.now) version }
    {
        self.marks.get(version).ok_or(LogRefusal::NoVersion)
    }

    /// What is kept of the console's open transaction; nothing is where it has none. Refused: 1.
    pub fn track(&self, console: u32) -> Result<Track, LogRefusal>
        ensures { answer_by track_of code_of result ≡ track_told (log_state S.Store.state self.now) console }
    {
        let console = ConsoleId::try_from(console)?;
        Ok(*self.tracks.at(console))
    }

    /// The versions that the console's open transaction noted, as noted; none where it has nothing open. Refused: 1.
    pub fn noted(&self, console: u32) -> Result<&[u32], LogRefusal>
        ensures { answer_by (λ list. list.now) code_of result ≡ noted_of (log_state S.Store.state self.now) console }
    {
        let console = ConsoleId::try_from(console)?;
        Ok(self.tracks.at(console).noted.as_slice())
    }

    // Kept: this and `order` fill the caller's list, since no memory is taken after opening.
    /// Puts the versions that the console's open transaction overwrites, as first written, at the front of the caller's
    /// list, leaves its later places alone, and answers how many there are. Refused: 1, 14.
    pub fn overwritten(&self, console: u32, list: &mut [u32]) -> Result<usize, LogRefusal>
        ensures { (answer_of result, list.new) ≡ overwritten_of (log_state S.Store.state self.now) console list.old }
    {
        let console = ConsoleId::try_from(console)?;
        let track = self.tracks.at(console);
        if list.len() < track.writes.as_slice().len() {
            return Err(LogRefusal::ShortList);
        }
        Ok(track.fill(list))
    }

    /// Puts the commit stamps by rank at the front of the caller's list, leaves its later places alone, and answers how
    /// many there are. Refused: 14.
    pub fn order(&self, list: &mut [u32]) -> Result<u16, LogRefusal>
        ensures { (answer_of result, list.new) ≡ order_of (log_state S.Store.state self.now) list.old }
    {
        let count = self.ranks.count();
        if list.len() < usize::from(count) {
            return Err(LogRefusal::ShortList);
        }
        self.ranks.fill(list);
        Ok(count)
    }
}
