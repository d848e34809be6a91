// What is kept of a granted commit for the day file.
ghost use Rattle.std.specs.Prelude.{◌≡◌, ◌++◌, length, drop};
ghost use Rattle.certifier.specs.Entries.{entry_by};

use crate::track::Track;

/// What a day file keeps of a granted commit: its console and its low mark, and the track of its transaction.
#[derive(Clone, Copy)]
pub struct DayEntry {
    pub console: u32,
    pub low: u16,
    pub track: Track,
}

// Kept: calls beside public fields, and the list filled as `Track` fills it, since callers may make these calls and their edits must stand.
impl DayEntry {
    /// The console of the transaction.
    pub fn console(&self) -> u32
        ensures { result ≡ (entry_by self.now).console }
    {
        self.console
    }

    /// Its low mark.
    pub fn low(&self) -> u16
        ensures { result ≡ (entry_by self.now).low }
    {
        self.low
    }

    /// The versions that it noted.
    pub fn noted(&self) -> &[u32]
        ensures { result.now ≡ (entry_by self.now).reads }
    {
        self.track.noted.as_slice()
    }

    /// Puts the versions that it overwrote at the front of the caller's list, leaves its later places alone, and answers
    /// how many there are.
    pub fn overwritten(&self, list: &mut [u32; 16]) -> usize
        ensures count { result ≡ length (entry_by self.now).writes }
        ensures list { list.new ≡ (entry_by self.now).writes ++ drop (length (entry_by self.now).writes) list.old }
    {
        self.track.fill(list)
    }
}
