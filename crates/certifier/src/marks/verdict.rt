// What a commit asks of the table of marks, and what it leaves there.
ghost use Rattle.std.specs.Prelude.{◌≡◌, ℕ, [], ◌∷◌, List, length, if◌then◌else◌, Some, None, nat_lt};
ghost use Rattle.std.specs.Iterator.{IsFinite, Drains};
ghost use Rattle.certifier.specs.Entries.{track_of};
ghost use Rattle.certifier.specs.Marking.{mark_at, low_mark, top_stamp, top_high, raised, lowered, Changes, grown, marked, verdict_of};

use crate::marks::Marks;
use crate::track::Track;
use crate::{Grant, Mark, Over};

impl Marks {
    // The row of version n, if there is one.
    pub(crate) fn get(&self, n: u32) -> Option<Mark>
        ensures { result ≡ (if nat_lt n (length self.now.rows.items) then Some (mark_at self.now.rows.items n) else None) }
    {
        self.rows.get(n as usize).copied()
    }

    // The row of version n, or an empty one.
    fn row(&self, n: u32) -> Mark
        ensures { result ≡ mark_at self.now.rows.items n }
    {
        self.get(n).unwrap_or(Mark::new(0))
    }

    // The smallest of `stamp` and the low marks present on the noted versions, and the greatest of their stamps.
    pub(crate) fn weigh(&self, stamp: u16, noted: &[u32]) -> (u16, u16)
        ensures low { result.0 ≡ low_mark self.now.rows.items stamp noted.now }
        ensures high { result.1 ≡ top_stamp self.now.rows.items 0 noted.now }
    {
        // Kept: one loop for both marks, so that each noted version is looked up once; a fold over a pair is no plainer.
        let mut low = stamp;
        let mut high = 0;
        for n in noted {
            let row = self.row(*n);
            low = low.min(row.low.unwrap_or(low));
            high = high.max(row.stamp);
        }
        (low, high)
    }

    // The greatest of `from` and the high marks of the overwritten versions.
    pub(crate) fn top_high(&self, from: u16, writes: &[Over]) -> u16
        ensures { result ≡ top_high self.now.rows.items from writes.now }
    {
        writes
            .iter()
            .fold(from, |high, write| high.max(self.row(write.version).high))
    }

    // Adds a row for each record written, where the table has place for it.
    fn add_all(&mut self, stamp: u16, writes: &[Over])
        ensures places { self.new.places ≡ self.old.places }
        ensures rows { self.new.rows.items ≡ grown self.old.places self.old.rows.items stamp writes.now }
    {
        // Kept: `push_reserved` cannot fail; `resize` would answer a Result.
        for _write in writes {
            if self.rows.len() < self.places {
                self.rows.push_reserved(Mark::new(stamp));
            }
        }
    }

    // The marks of a transaction that would commit at `stamp`.
    pub(crate) fn judge(&self, stamp: u16, track: &Track) -> Grant
        ensures { result ≡ verdict_of self.now.rows.items stamp (track_of track.now) }
    {
        let (low, newest) = self.weigh(stamp, track.noted());
        let high = self.top_high(newest, track.writes.as_slice());
        Grant { stamp, low, high }
    }

    // Changes the row of version n, if the table has it.
    // Kept: a row changes through a method of the table, a rule of the project, so five methods say that `places` stays.
    // Kept: by an index, since after `get_mut` nothing is known of the rows.
    fn change<F: Fn(Mark) -> Mark>(&mut self, n: u32, change: &F)
        requires { F.IsAlwaysCallable change.now }
        ensures places { self.new.places ≡ self.old.places }
        ensures row { Changes (F.post change.now) self.old.rows.items (n ∷ []) self.new.rows.items }
    {
        let n = n as usize;
        if n < self.rows.len() {
            self.rows[n] = change(self.rows[n]);
        }
    }

    // Changes the row of each numbered version that the table has.
    fn change_each<I: Iterator<Item = u32> + Drop, F: Fn(Mark) -> Mark>(
        &mut self,
        numbers: I,
        change: F,
    )
        requires can { I.can_next numbers }
        requires ends { IsFinite (I.remaining numbers) }
        requires callable { F.IsAlwaysCallable change }
        ensures places { self.new.places ≡ self.old.places }
        ensures rows { ((ns : List ℕ) × Drains I.next_gives numbers ns × Changes (F.post change) self.old.rows.items ns self.new.rows.items) }
    {
        for n in numbers {
            self.change(n, &change);
        }
    }

    // Sets the high marks of the noted versions, and the low marks of the overwritten ones.
    fn mark_each(&mut self, grant: Grant, track: &Track)
        ensures places { self.new.places ≡ self.old.places }
        ensures rows { self.new.rows.items ≡ lowered (raised self.old.rows.items grant.stamp (track_of track.now).noted) grant.low (track_of track.now).writes }
    {
        let raise = |mark: Mark| Mark {
            high: grant.stamp,
            ..mark
        };
        let lower = |mark: Mark| Mark {
            low: Some(grant.low),
            ..mark
        };
        self.change_each(track.noted().iter().copied(), raise);
        let writes = track.writes.as_slice();
        self.change_each(writes.iter().map(|write| write.version), lower);
    }

    // The marks after the commit.
    pub(crate) fn settle(&mut self, grant: Grant, track: &Track)
        ensures places { self.new.places ≡ self.old.places }
        ensures rows { self.new.rows.items ≡ marked self.old.places self.old.rows.items grant.stamp grant.low (track_of track.now) }
    {
        self.mark_each(grant, track);
        self.add_all(grant.stamp, track.writes.as_slice());
    }
}
