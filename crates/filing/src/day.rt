// The day of a run: what a day file keeps of its commits.
ghost use Rattle.std.specs.Prelude.{◌≡◌, ◌≤◌, true, map, vec_len};
ghost use Rattle.certifier.specs.Entries.{entry_by};
ghost use Rattle.dayfile.specs.Format.{sound};
ghost use Rattle.filing.specs.Filing.{commits_of};

use certifier::{DayEntry, Log};
use runs::Answer;

/// What a day file keeps of the commits of a log, in their order. Each is in range, so a writer with room takes them all.
#[derive(Drop)]
pub struct Day {
    pub(crate) records: u32,
    pub(crate) entries: Vec<DayEntry>,
    ghost some: { 1 ≤ records },
    ghost few: { records ≤ 256 },
    ghost short: { vec_len entries ≤ 4000 },
    ghost fits: { sound 1 records (commits_of (map entry_by entries.items)) ≡ true },
}

/// A log, what it answered to the calls that were played on it since its opening, and its day.
#[derive(Drop)]
pub struct DayRun<S, E> {
    pub log: Log<S, E>,
    pub answers: Vec<Answer<E>>,
    pub day: Day,
}
