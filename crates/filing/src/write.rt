// The day file of a day.
ghost use Rattle.std.specs.Prelude.{◌≡◌, ℕ, ◌+◌, ◌*◌, ◌≤◌, length, IfOk, vec_len};
ghost use Rattle.store.specs.Refusals.Answer.{gives};
ghost use Rattle.certifier.specs.Entries.{entry_by};
ghost use Rattle.dayfile.specs.Format.{file_bytes};
ghost use Rattle.daywriter.specs.Stands.{writer_of};
ghost use Rattle.daywriter.specs.Writing.{over, taking, added};
ghost use Rattle.filing.specs.Filing.{commit_of, commits_of};
ghost use Rattle.filing.specs.Days.{records_of, entries_of};

use crate::day::Day;
use certifier::DayEntry;
use daywriter::{NewEntry, OpenFile, Progress};
use std::alloc::{AllocError, Global};

// An entry has no more bytes than this: its head, 64 noted versions and 16 overwritten ones.
const ENTRY: usize = 165;

// Adds an entry that the file takes.
fn add_entry(file: &mut OpenFile, entry: &DayEntry)
    requires { taking (length (writer_of file.old).bytes) (writer_of file.old).extent (commit_of (entry_by entry.now)) ≡ gives tt }
    ensures does { writer_of file.new ≡ added (writer_of file.old) (commit_of (entry_by entry.now)) }
    ensures lent { file.new.buf.ghost_name ≡ file.old.buf.ghost_name }
{
    let mut list = [0; 16];
    let count = entry.track.overwritten(&mut list);
    let added = NewEntry {
        console: entry.console,
        low: u32::from(entry.low),
        reads: entry.track.noted(),
        writes: &list[0..count],
    };
    let _ = file.add(&added);
}

// Writes the file of a day to the front of a buffer that has room for it, and answers how many bytes it has.
// Kept: the buffer comes back beside the length. In one function with the loop, of `buf.new` only its length is known at the return.
fn fill_day<'a>(buf: &'a mut [u8], day: &Day) -> (&'a mut [u8], usize)
    requires { 165 * vec_len day.now.entries + 10 ≤ length buf.old }
    ensures bytes { result.0.now ≡ over buf.old 0 (file_bytes (records_of day.now) (commits_of (entries_of day.now))) }
    ensures len { result.1 ≡ length (file_bytes (records_of day.now) (commits_of (entries_of day.now))) }
    ensures lent { result.0.ghost_name ≡ buf.entry.ghost_name }
{
    let Ok(progress) = Progress::start(buf.len(), day.records) else {
        unreachable()
    };
    let mut file = progress.open(buf);
    for kept in &day.entries {
        add_entry(&mut file, kept);
    }
    file.close().bytes()
}

// Writes the file of a day to the front of a buffer that the caller keeps, and answers how many bytes it has.
fn put_day(buf: &mut [u8], day: &Day) -> usize
    requires { 165 * vec_len day.now.entries + 10 ≤ length buf.old }
    ensures bytes { buf.new ≡ over buf.old 0 (file_bytes (records_of day.now) (commits_of (entries_of day.now))) }
    ensures len { result ≡ length (file_bytes (records_of day.now) (commits_of (entries_of day.now))) }
{
    let (_, len) = fill_day(buf, day);
    len
}

/// The day file of a day. No entry of it is refused. Fails where there is no memory.
pub fn write_day(heap: Global, day: &Day) -> Result<Vec<u8>, AllocError>
    ensures { IfOk result (λ v. v.items ≡ file_bytes (records_of day.now) (commits_of (entries_of day.now))) }
{
    let room = day.entries.len() * ENTRY + 10;
    let mut bytes = vec![in heap; 0u8; room]?;
    let len = put_day(bytes.as_mut_slice(), day);
    bytes.truncate(len);
    Ok(bytes)
}
