ghost use Rattle.std.specs.Prelude.{◌≡◌, ℕ, ◌+◌, ◌^◌, ◌<◌, [], Some, None, ◌≢◌, slice_index_or};
ghost use Rattle.store.specs.Meaning.{pending_in, own_at, wrote};
ghost use Rattle.store.specs.Consoles.{pend_at};
ghost use Rattle.versions.specs.Session.{console_with, Found, Within, Live};
ghost use Rattle.versions.specs.Sessions.{consoles_of, records_of, ChangesConsole};

use crate::session::Hold;
use crate::sessions::Sessions;
use store::{ConsoleId, Pending, Refusal};

// Kept: `at < records_of` is asked by three methods, since the bound is a number of the value and no type states it.
impl<E: Copy> Sessions<E> {
    // How many entries are pending.
    pub(crate) fn count(&self) -> usize
        ensures { result ≡ pending_in (consoles_of self.now) }
    {
        self.count
    }

    // The console's begin stamp, if it is open.
    pub(crate) fn began(&self, console: ConsoleId) -> Option<u16>
        ensures { slice_index_or (consoles_of self.now) console.number None ≡ console_with result (pend_at (consoles_of self.now) console.number) }
    {
        // Kept: by reference; by a plain copy of the option a transaction of `alone newest` took 67 ns and not 57.
        self.sessions[console.number as usize]
            .began
            .as_ref()
            .copied()
    }

    // The begin stamp of a console that must be open.
    pub(crate) fn live(&self, console: ConsoleId) -> Result<u16, Refusal>
        ensures { Live (consoles_of self.now) console.number result }
    {
        self.began(console).ok_or(Refusal::Shut)
    }

    // What the console has pending at the record, if it has an entry there.
    pub(crate) fn own(&self, console: ConsoleId, at: u32) -> Option<E>
        requires { at < records_of self.now }
        ensures { result ≡ own_at (pend_at (consoles_of self.now) console.number) at }
    {
        let pending = self.pending(console);
        // Most reads come before the first write of their transaction: those need no search.
        if pending.is_empty() {
            return None;
        }
        let hold = self.find(at)?;
        if hold.console != console {
            return None;
        }
        Some(pending[hold.place as usize].entry)
    }

    // What the console has pending.
    pub(crate) fn pending(&self, console: ConsoleId) -> &[Pending<E>]
        ensures value { result.now ≡ pend_at (consoles_of self.now) console.number }
        ensures within { Within (records_of self.now) result.now }
    {
        self.sessions[console.number as usize].pending.as_slice()
    }

    // Where the record's pending entry stands.
    pub(crate) fn find(&self, at: u32) -> Option<Hold>
        requires { at < records_of self.now }
        ensures { Found (consoles_of self.now) at result }
    {
        let hold = self.holds[at as usize];
        let pending = self.pending(hold.console).get(hold.place as usize)?;
        (pending.at == at).then_some(hold)
    }

    // Opens the console at the stamp.
    pub(crate) fn open(&mut self, console: ConsoleId, stamp: u16)
        requires { slice_index_or (consoles_of self.old) console.number None ≡ None }
        ensures { ChangesConsole self.old self.new console.number (Some (record { began = stamp; pending = [] })) }
    {
        self.sessions[console.number as usize].began = Some(stamp);
    }

    // Shuts the console, and forgets what it has pending.
    pub(crate) fn shut(&mut self, console: ConsoleId)
        ensures { ChangesConsole self.old self.new console.number None }
    {
        let session = &mut self.sessions[console.number as usize];
        self.count -= session.pending.len();
        session.began = None;
        session.pending.truncate(0);
    }

    // Replaces the entry that is pending at `hold`.
    pub(crate) fn replace(&mut self, hold: Hold, at: u32, entry: E)
        requires { Found (consoles_of self.old) at (Some hold) }
        ensures { ChangesConsole self.old self.new hold.console.number (wrote (slice_index_or (consoles_of self.old) hold.console.number None) at entry) }
    {
        self.sessions[hold.console.number as usize].pending[hold.place as usize] = Pending {
            at,
            entry,
        };
    }

    // Makes an entry pending at a record that has none.
    pub(crate) fn add(&mut self, console: ConsoleId, at: u32, entry: E)
        requires within { at < records_of self.old }
        requires free { Found (consoles_of self.old) at None }
        requires count { pending_in (consoles_of self.old) + 1 < 2 ^ 32 }
        requires live { slice_index_or (consoles_of self.old) console.number None ≢ None }
        ensures { ChangesConsole self.old self.new console.number (wrote (slice_index_or (consoles_of self.old) console.number None) at entry) }
    {
        let session = &mut self.sessions[console.number as usize];
        let place = session.pending.len() as u32;
        session.pending.push_reserved(Pending { at, entry });
        self.holds[at as usize] = Hold { console, place };
        self.count += 1;
    }
}
