// The calls of a log. A console above 15 is refused here; the other checks of the store run there, and its refusals are passed up.
ghost use Rattle.std.specs.Prelude.{◌≡◌};
ghost use Rattle.store.specs.Refusals as store;
ghost use Rattle.certifier.specs.Refusals.{code_of, passed};
ghost use Rattle.certifier.specs.Meaning.{begin_step, read_step, write_step, commit_step, drop_step, step};
ghost use Rattle.certifier.specs.Logs.{log_state, begin_reply, read_reply, write_reply, commit_reply, drop_reply, reply_of};

use crate::log::Log;
use crate::{Accepted, Answer, Call, Grant, LogRefusal};
use store::{ConsoleId, DAY, Refusal, Seen, Store};

impl From<Refusal> for LogRefusal {
    ghost from_gives = { λ x y. code_of y ≡ passed (store.code_of x) };

    // The refusals that every layer has are the log's own; the others stay the store's.
    fn from(e: Refusal) -> LogRefusal {
        match e {
            Refusal::NoConsole => LogRefusal::NoConsole,
            Refusal::NoRecord => LogRefusal::NoRecord,
            Refusal::Shut => LogRefusal::Shut,
            Refusal::Open => LogRefusal::Open,
            Refusal::DayFull => LogRefusal::DayFull,
            Refusal::Held | Refusal::Stale | Refusal::NoRoom => LogRefusal::Store(e),
        }
    }
}

impl<S: Store<E>, E: Copy> Log<S, E> {
    /// Opens a transaction at the console, and answers its begin stamp, the clock. Refused: 1, 4.
    pub fn begin(&mut self, console: u32) -> Result<u16, LogRefusal>
        ensures { (begin_reply result, log_state S.Store.state self.new) ≡ begin_step (log_state S.Store.state self.old) console }
    {
        let id = ConsoleId::try_from(console)?;
        let stamp = self.store.begin(console)?;
        self.tracks.clear(id);
        Ok(stamp)
    }

    /// The console's own pending entry at the record, or else the version that the store shows it, which is then noted.
    /// Refused: 1, 3, 2, 5.
    pub fn read(&mut self, console: u32, at: u32) -> Result<Seen<E>, LogRefusal>
        ensures { (read_reply result, log_state S.Store.state self.new) ≡ read_step S.Store.rules (log_state S.Store.state self.old) console at }
    {
        let id = ConsoleId::try_from(console)?;
        let seen = self.store.read(console, at)?;
        if let Seen::Committed(version) = &seen {
            self.tracks.note(id, version.number)?;
        }
        Ok(seen)
    }

    /// Makes an entry pending at the record, and answers the number of the version that it will overwrite. A second
    /// write to a record replaces the first. Refused: 1, 3, 2, 6, and 7, 8, 9 from the store.
    pub fn write(&mut self, console: u32, at: u32, entry: E) -> Result<u32, LogRefusal>
        ensures { (write_reply result, log_state S.Store.state self.new) ≡ write_step S.Store.rules (log_state S.Store.state self.old) console at entry }
    {
        let id = ConsoleId::try_from(console)?;
        if self.tracks.at(id).is_full() {
            if let Seen::Committed(_) = self.store.read(console, at)? {
                return Err(LogRefusal::Writes);
            }
        }
        let version = self.store.write(console, at, entry)?;
        self.tracks.write(id, at, version);
        Ok(version)
    }

    /// Commits the console's transaction where its high mark is below its low mark, and answers its stamp and both
    /// marks. Otherwise the answer is 11, and the transaction is dropped. Refused: 1, 3, 10, 11.
    pub fn commit(&mut self, console: u32) -> Result<Grant, LogRefusal>
        ensures { (commit_reply result, log_state S.Store.state self.new) ≡ commit_step (log_state S.Store.state self.old) console }
    {
        let id = ConsoleId::try_from(console)?;
        let stamp = self.store.clock().saturating_add(1);
        let track = self.tracks.at(id);
        let grant = self.marks.judge(stamp, track);
        if grant.high >= grant.low && stamp <= DAY {
            self.store.drop(console)?;
            self.tracks.clear(id);
            return Err(LogRefusal::Unsafe);
        }
        self.store.commit(console)?;
        self.marks.settle(grant, track);
        self.ranks.add(grant.low);
        self.tracks.clear(id);
        Ok(grant)
    }

    /// Forgets the console's transaction. Refused: 1, 3.
    pub fn drop(&mut self, console: u32) -> Result<(), LogRefusal>
        ensures { (drop_reply result, log_state S.Store.state self.new) ≡ drop_step (log_state S.Store.state self.old) console }
    {
        let id = ConsoleId::try_from(console)?;
        self.store.drop(console)?;
        self.tracks.clear(id);
        Ok(())
    }

    /// Makes a call that is given as a value.
    pub fn call(&mut self, call: Call<E>) -> Answer<E>
        ensures { (reply_of result, log_state S.Store.state self.new) ≡ step S.Store.rules (log_state S.Store.state self.old) call }
    {
        Ok(match call {
            Call::Begin(console) => Accepted::Begun(self.begin(console)?),
            Call::Read(console, at) => match self.read(console, at)? {
                Seen::Own(entry) => Accepted::Own(entry),
                Seen::Committed(version) => Accepted::Saw(version),
            },
            Call::Write(console, at, entry) => {
                Accepted::Overwrites(self.write(console, at, entry)?)
            }
            Call::Commit(console) => Accepted::Granted(self.commit(console)?),
            Call::Drop(console) => {
                self.drop(console)?;
                Accepted::Dropped
            }
        })
    }
}
