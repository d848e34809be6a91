ghost use Rattle.std.specs.Prelude.{◌≡◌};
ghost use Rattle.store.specs.Meaning.{Opens};
ghost use Rattle.versions.specs.States.{state_of};

use crate::Versions;
use crate::sessions::Sessions;
use crate::table::Table;
use std::alloc::Global;
use std::marker::PhantomData;
use store::kind::Kind;
use store::{ConsoleId, DAY, OpenFault, Refusal, Seen, Store, TableSize};

impl<E: Copy, K: Kind> Store<E> for Versions<E, K> {
    ghost rules = { K.Kind.rules };

    ghost state = { state_of };

    ghost inside = { K.Kind.inside };

    fn open(heap: Global, size: u32, room: u32, first: E) -> Result<Versions<E, K>, OpenFault>
        ensures { Opens state_of size room first result }
    {
        let size = TableSize::new(size, room)?;
        let table = Table::fresh(heap, first, size)?;
        let sessions = Sessions::fresh(heap, size)?;
        Ok(Versions {
            kind: PhantomData,
            clock: 0,
            table,
            sessions,
        })
    }

    fn begin(&mut self, console: u32) -> Result<u16, Refusal> {
        let console = ConsoleId::try_from(console)?;
        if self.sessions.began(console).is_some() {
            return Err(Refusal::Open);
        }
        self.sessions.open(console, self.clock);
        Ok(self.clock)
    }

    fn read(&self, console: u32, at: u32) -> Result<Seen<E>, Refusal> {
        let console = ConsoleId::try_from(console)?;
        let began = self.sessions.live(console)?;
        if at >= self.table.size() {
            return Err(Refusal::NoRecord);
        }
        match self.sessions.own(console, at) {
            Some(entry) => Ok(Seen::Own(entry)),
            None => Ok(Seen::Committed(*self.table.shown::<K>(at, began))),
        }
    }

    fn write(&mut self, console: u32, at: u32, entry: E) -> Result<u32, Refusal> {
        let console = ConsoleId::try_from(console)?;
        let began = self.sessions.live(console)?;
        if at >= self.table.size() {
            return Err(Refusal::NoRecord);
        }
        let newest = self.table.newest(at);
        match self.sessions.find(at) {
            Some(hold) => {
                if hold.console != console {
                    return Err(Refusal::Held);
                }
                self.sessions.replace(hold, at, entry);
            }
            None => {
                if !K::admits(newest.stamp, began) {
                    return Err(Refusal::Stale);
                }
                if self.table.count() + self.sessions.count() >= self.table.room() {
                    return Err(Refusal::NoRoom);
                }
                self.sessions.add(console, at, entry);
            }
        }
        Ok(newest.number)
    }

    fn commit(&mut self, console: u32) -> Result<u16, Refusal> {
        let console = ConsoleId::try_from(console)?;
        self.sessions.live(console)?;
        if self.clock >= DAY {
            return Err(Refusal::DayFull);
        }
        let clock = self.clock + 1;
        let pending = self.sessions.pending(console);
        self.table.append(pending, clock);
        self.sessions.shut(console);
        self.clock = clock;
        Ok(clock)
    }

    fn drop(&mut self, console: u32) -> Result<(), Refusal> {
        let console = ConsoleId::try_from(console)?;
        self.sessions.live(console)?;
        self.sessions.shut(console);
        Ok(())
    }

    fn clock(&self) -> u16 {
        self.clock
    }

    fn size(&self) -> u32 {
        self.table.size()
    }
}
