// The reader.
ghost use Rattle.std.specs.Prelude.{◌≡◌, ℕ, ◌+◌, ◌*◌, ◌/◌, ◌^◌, ◌<◌, ◌≤◌, min, false, length, take, drop, is_some, IfOk, MatchOption};
ghost use Rattle.std.specs.Option.{option_map};
ghost use Rattle.std.specs.Iterator.{at_most};
ghost use Rattle.store.specs.Refusals.{answer_by};
ghost use Rattle.dayfile.specs.Refusals.{code_of};
ghost use Rattle.dayfile.specs.Format.{pairs};
ghost use Rattle.dayfile.specs.Reading.{entry_at, entries_in, read_of, points, marked, Says, Whole, walk_at, step_of};
ghost use Rattle.dayfile.specs.Said.{said, shape_of, walk_of};

use crate::{DayFile, Entries, Entry, FileRefusal, Pairs, Spot};

// What a trailer says behind its mark.
#[derive(Clone, Copy)]
pub(crate) struct Trailer {
    records: u16,
    count: u16,
    len: u32,
}

impl Trailer {
    // Takes a trailer apart, if it begins with the mark.
    fn read(tail: &[u8; 10]) -> Option<Trailer>
        ensures { MatchOption result (marked tail.now ≡ false) (λ t. Says tail.now t.records t.count t.len) }
    {
        let [0x52, 0x54, rh, rl, nh, nl, a, b, c, d, ..] = *tail else {
            return None;
        };
        Some(Trailer {
            records: u16::from_be_bytes([rh, rl]),
            count: u16::from_be_bytes([nh, nl]),
            len: u32::from_be_bytes([a, b, c, d]),
        })
    }

    // Whether its numbers are in range, with that many bytes in front of it.
    fn well_pointed(self, front: usize) -> bool
        ensures { result ≡ points self.records self.count self.len front }
    {
        1 <= self.records && self.records <= 256 && self.count <= 4000 && self.len as usize <= front
    }
}

impl<'a> DayFile<'a> {
    /// Reads the file that ends where the input ends, and checks all of it. Bytes in front of it are not looked at.
    /// Refused: 30, 31, 32, 33, in this sequence.
    pub fn read(input: &'a [u8]) -> Result<DayFile<'a>, FileRefusal>
        ensures answer { answer_by shape_of code_of result ≡ read_of input.now }
        ensures whole { IfOk result (λ f. Whole (shape_of f)) }
    {
        let (front, tail) = input.split_last_chunk().ok_or(FileRefusal::Short)?;
        let trailer = Trailer::read(tail).ok_or(FileRefusal::Mark)?;
        if !trailer.well_pointed(front.len()) {
            return Err(FileRefusal::Pointer);
        }
        let offset = front.len() - trailer.len as usize;
        let file = DayFile {
            part: &input[offset..],
            offset,
            records: trailer.records,
            count: trailer.count,
        };
        if !file.entries().fill() {
            return Err(FileRefusal::Entry);
        }
        Ok(file)
    }

    /// A walk over the file's entries, in turn.
    pub fn entries(&self) -> Entries<'a>
        ensures { walk_of result ≡ walk_at (shape_of self.now) }
    {
        let body = &self.part[0..self.part.len().saturating_sub(10)];
        Entries {
            rest: body,
            left: self.count,
            spot: Spot {
                place: 1,
                bound: u32::from(self.records),
            },
        }
    }
}

impl<'a> Entries<'a> {
    // The next entry, if the bytes begin with one whose fields are in range, and the bytes behind it.
    fn front(&self) -> Option<(Entry<'a>, &'a [u8])>
        ensures { option_map (λ p. (said p.0, p.1.now)) result ≡ entry_at self.now.spot.place self.now.spot.bound self.now.rest.now }
    {
        let [console, reads, writes, high, low, rest @ ..] = self.rest else {
            return None;
        };
        let noted = 2 * usize::from(*reads);
        let (versions, after) = rest.split_at_checked(noted + 2 * usize::from(*writes))?;
        let (reads, writes) = versions.split_at(noted);
        let entry = Entry {
            console: *console,
            low: u16::from_be_bytes([*high, *low]),
            reads,
            writes,
        };
        let fits = self.spot.fits(
            u32::from(entry.console),
            u32::from(entry.low),
            entry.noted(),
            entry.overwritten(),
        );
        fits.then_some((entry, after))
    }

    // Whether the entries that are left are all there, and fill the bytes exactly.
    fn fill(mut self) -> bool
        ensures { result ≡ is_some (entries_in self.entry.left self.entry.spot.place self.entry.spot.bound self.entry.rest.now) }
    {
        // Kept: after a `for` over `&mut self`, which was tried, nothing is known of what is left in the walk.
        while self.next().is_some() {}
        self.left == 0 && self.rest.is_empty()
    }
}

impl<'a> Iterator for Entries<'a> {
    type Item = Entry<'a>;

    ghost remaining = { λ s. at_most s.left };

    ghost next_gives = { λ s r t. (option_map said r, walk_of t) ≡ step_of (walk_of s) };

    // The next entry; none, and the walk stays, where no entry is left or the bytes do not say one.
    #[tactic(auto, using(crate::proofs::Walks::few_writes))]
    fn next(&mut self) -> Option<Entry<'a>> {
        if self.left == 0 {
            return None;
        }
        let (entry, after) = self.front()?;
        *self = Entries {
            rest: after,
            left: self.left - 1,
            spot: Spot {
                place: self.spot.place + 1,
                bound: self.spot.bound + entry.writes.len() as u32 / 2,
            },
        };
        Some(entry)
    }
}

/// Puts the numbers that pairs of bytes are into the front of a list, as many as it has places for,
/// and answers how many that were. Later places stay.
pub fn unpack(bytes: &[u8], out: &mut [u32]) -> usize
    ensures count { result ≡ min (length bytes.now / 2) (length out.old) }
    ensures front { take result out.new ≡ take result (pairs bytes.now) }
    ensures rest { drop result out.new ≡ drop result out.old }
{
    let count = out.len().min(bytes.len() / 2);
    // Kept: in a `for` over `out.iter_mut().zip(..)`, which was tried, a proof has no name for what the list holds.
    for (i, number) in Pairs::of(bytes).take(count).enumerate() {
        out[i] = number;
    }
    count
}
