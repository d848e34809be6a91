// The writer: starting, adding, closing.
ghost use Rattle.std.specs.Prelude.{◌≡◌, ℕ, ◌+◌, ◌*◌, ◌<◌, ◌≤◌, true, length};
ghost use Rattle.store.specs.Refusals.{answer_by};
ghost use Rattle.store.specs.Refusals.Answer.{gives};
ghost use Rattle.dayfile.specs.Refusals.{code_of};
ghost use Rattle.dayfile.specs.Format.{fits, entry_bytes};
ghost use Rattle.daywriter.specs.Writing.{started, start_of, has_room, taking, after, added, add_of, close_of};
ghost use Rattle.daywriter.specs.Stands.{wrote, extent_of, writer, writer_of, closed_of};

use crate::put::{put_entry, put_trailer};
use crate::{ClosedFile, NewEntry, OpenFile, Progress};
use dayfile::{FileRefusal, Spot};

impl NewEntry<'_> {
    // How many bytes the entry takes.
    fn size(&self) -> usize
        requires { (length self.now.reads.now ≤ 64) × (length self.now.writes.now ≤ 16) }
        ensures exact { result ≡ length (entry_bytes (wrote self.now)) }
        ensures small { result ≤ 165 }
    {
        5 + 2 * self.reads.len() + 2 * self.writes.len()
    }
}

impl Progress {
    /// The start of a file of so many records in a buffer of so many bytes. Refused: 30, 32, in this sequence.
    pub fn start(room: usize, records: u32) -> Result<Progress, FileRefusal>
        ensures { answer_by extent_of code_of result ≡ start_of room records }
    {
        if room < 10 {
            return Err(FileRefusal::Short);
        }
        if records < 1 || records > 256 {
            return Err(FileRefusal::Pointer);
        }
        Ok(Progress::fresh(records))
    }

    // A file without entries.
    pub(crate) fn fresh(records: u32) -> Progress
        requires { records ≤ 256 }
        ensures { extent_of result ≡ started records }
    {
        Progress {
            records,
            count: 0,
            made: records,
            at: 0,
        }
    }

    // Where the next entry stands.
    fn spot(self) -> Spot
        ensures { result ≡ record { place = self.count + 1; bound = self.made } }
    {
        Spot {
            place: self.count + 1,
            bound: self.made,
        }
    }

    // Whether one more entry of so many bytes may come, and fits in front of the trailer.
    fn has_room(self, room: usize, size: usize) -> bool
        requires { size ≤ 165 }
        ensures { result ≡ has_room room (extent_of self) size }
    {
        self.count < 4000 && self.at + size + 10 <= room
    }

    // Whether an entry is taken.
    pub(crate) fn check(self, room: usize, e: &NewEntry) -> Result<(), FileRefusal>
        ensures { answer_by (λ u. u) code_of result ≡ taking room (extent_of self) (wrote e.now) }
    {
        if !self.spot().fits(e.console, e.low, e.reads, e.writes) {
            return Err(FileRefusal::Entry);
        }
        if !self.has_room(room, e.size()) {
            return Err(FileRefusal::Full);
        }
        Ok(())
    }

    // The file with one more entry.
    pub(crate) fn after(self, e: &NewEntry) -> Progress
        requires fit { fits (self.count + 1) self.made (wrote e.now) ≡ true }
        requires more { self.count < 4000 }
        ensures { extent_of result ≡ after (extent_of self) (wrote e.now) }
    {
        Progress {
            records: self.records,
            count: self.count + 1,
            made: self.made + e.writes.len() as u32,
            at: self.at + e.size(),
        }
    }

    // Adds an entry that is taken to the file, in its buffer.
    pub(crate) fn put(&mut self, buf: &mut [u8], e: &NewEntry)
        requires { taking (length buf.old) (extent_of self.old) (wrote e.now) ≡ gives tt }
        ensures { writer self.new buf.new ≡ added (writer self.old buf.old) (wrote e.now) }
    {
        put_entry(buf, self.at, e);
        *self = self.after(e);
    }

    // Writes the trailer behind the file's entries in its buffer, and answers how many bytes the file has: none,
    // where the buffer has no room for the trailer.
    pub(crate) fn close(self, buf: &mut [u8]) -> usize
        ensures { record { bytes = buf.new; len = result } ≡ close_of (writer self buf.old) }
    {
        if self.at + 10 > buf.len() {
            return 0;
        }
        put_trailer(buf, self);
        self.at + 10
    }

    /// Opens the file in a buffer. Where that is too short for a trailer, the file refuses every entry that is in range (34),
    /// and closing it writes nothing.
    pub fn open<'a>(self, buf: &'a mut [u8]) -> OpenFile<'a>
        ensures state { writer_of result ≡ record { extent = extent_of self; bytes = buf.old } }
        ensures lent { result.buf.ghost_name ≡ buf.entry.ghost_name }
    {
        OpenFile {
            buf,
            progress: self,
        }
    }
}

impl<'a> OpenFile<'a> {
    /// Adds an entry. Refused: 33, 34, in this sequence; then file and buffer are as before.
    pub fn add(&mut self, e: &NewEntry) -> Result<(), FileRefusal>
        ensures does { (answer_by (λ u. u) code_of result, writer_of self.new) ≡ add_of (writer_of self.old) (wrote e.now) }
        ensures lent { self.new.buf.ghost_name ≡ self.old.buf.ghost_name }
    {
        self.progress.check(self.buf.len(), e)?;
        self.progress.put(self.buf, e);
        Ok(())
    }

    /// Closes the file: the trailer is written behind its entries, and it takes no more.
    pub fn close(self) -> ClosedFile<'a>
        ensures does { closed_of result ≡ close_of (writer_of self.entry) }
        ensures lent { result.buf.ghost_name ≡ self.entry.buf.ghost_name }
    {
        let OpenFile { buf, progress } = self;
        let len = progress.close(buf);
        ClosedFile { buf, len }
    }
}

impl<'a> ClosedFile<'a> {
    /// The buffer, and how many bytes at its front are the file.
    // Kept: the caller lent the whole buffer and gets the whole of it back, so the file's length stands beside it.
    pub fn bytes(self) -> (&'a mut [u8], usize)
        ensures bytes { (result.0.now ≡ (closed_of self.entry).bytes) × (result.1 ≡ (closed_of self.entry).len) }
        ensures lent { result.0.ghost_name ≡ self.entry.buf.ghost_name }
    {
        let ClosedFile { buf, len } = self;
        (buf, len)
    }
}
