// Whole files: one written at once, one read and written again.
ghost use Rattle.std.specs.Prelude.{◌≡◌, ℕ, ◌≤◌, List, map, length, take, IfOk};
ghost use Rattle.store.specs.Refusals.{Answer, answer_by};
ghost use Rattle.store.specs.Refusals.Answer.{gives};
ghost use Rattle.dayfile.specs.Refusals.{code_of};
ghost use Rattle.dayfile.specs.Reading.{Whole};
ghost use Rattle.dayfile.specs.Said.{said, shape_of};
ghost use Rattle.daywriter.specs.Writing.{over, Extent, taking, added};
ghost use Rattle.daywriter.specs.Files.{check_all, write_of, copy_of, Reads, Rewritten};
ghost use Rattle.daywriter.specs.Stands.{wrote, extent_of, writer};

use crate::{NewEntry, Progress};
use dayfile::{DayFile, Entry, FileRefusal, unpack};

// What the entries come to, if a file in a buffer of so many bytes takes them all.
fn check_all(room: usize, records: u32, entries: &[NewEntry]) -> Result<Progress, FileRefusal>
    ensures { answer_by extent_of code_of result ≡ check_all room records (map wrote entries.now) }
{
    let mut progress = Progress::start(room, records)?;
    for e in entries {
        progress.check(room, e)?;
        progress = progress.after(e);
    }
    Ok(progress)
}

// Writes a file whose entries are all taken, and answers how many bytes it has.
fn fill(buf: &mut [u8], records: u32, entries: &[NewEntry]) -> usize
    requires { (x : Extent) × (check_all (length buf.old) records (map wrote entries.now) ≡ gives x) }
    ensures answer { ◌≡◌ {A = Answer ℕ × List ℕ} (gives result, buf.new) (write_of buf.old records (map wrote entries.now)) }
    ensures reads { Reads (take result buf.new) records (map wrote entries.now) }
{
    let mut progress = Progress::fresh(records);
    for e in entries {
        progress.put(buf, e);
    }
    progress.close(buf)
}

/// Writes a file of so many records with these entries to the front of a buffer, and answers how many bytes it has.
/// Refused: 30, 32, then for each entry in turn 33, 34; then the buffer is as before.
pub fn write_file(buf: &mut [u8], records: u32, entries: &[NewEntry]) -> Result<usize, FileRefusal>
    ensures answer { (answer_by (λ n. n) code_of result, buf.new) ≡ write_of buf.old records (map wrote entries.now) }
    ensures reads { IfOk result (λ len. Reads (take len buf.new) records (map wrote entries.now)) }
{
    check_all(buf.len(), records, entries)?;
    Ok(fill(buf, records, entries))
}

// Adds an entry that was read, and that is taken.
fn put_read(progress: &mut Progress, buf: &mut [u8], e: &Entry)
    requires { taking (length buf.old) (extent_of progress.old) (said e.now) ≡ gives tt }
    ensures { writer progress.new buf.new ≡ added (writer progress.old buf.old) (said e.now) }
{
    // Kept: a copy goes through the writer, whose entries lend their versions as slices; no heap is taken here, so arrays hold them.
    let mut reads = [0u32; 64];
    let mut writes = [0u32; 16];
    let nr = unpack(e.reads, &mut reads);
    let nw = unpack(e.writes, &mut writes);
    let again = NewEntry {
        console: u32::from(e.console),
        low: u32::from(e.low),
        reads: &reads[0..nr],
        writes: &writes[0..nw],
    };
    progress.put(buf, &again);
}

// Writes the entries of a file that was read, into a buffer that has room for them, and answers how many bytes the file has.
fn rewrite(file: &DayFile, buf: &mut [u8]) -> usize
    requires whole { Whole (shape_of file.now) }
    requires room { length file.now.part.now ≤ length buf.old }
    ensures bytes { buf.new ≡ over buf.old 0 file.now.part.now }
    ensures len { result ≡ length file.now.part.now }
{
    let mut progress = Progress::fresh(u32::from(file.records));
    for e in file.entries() {
        put_read(&mut progress, buf, &e);
    }
    progress.close(buf)
}

/// Reads the file at the end of the input, writes its entries as a file to the front of a buffer, and answers how many bytes
/// that has: they are exactly the file's.
/// Refused: 30, 31, 32, 33 of the input, then 34 where the buffer is shorter than the file; then the buffer is as before.
pub fn copy_file(input: &[u8], buf: &mut [u8]) -> Result<usize, FileRefusal>
    ensures answer { (answer_by (λ n. n) code_of result, buf.new) ≡ copy_of input.now buf.old }
    ensures again { IfOk result (λ len. Rewritten input.now (take len buf.new)) }
{
    let file = DayFile::read(input)?;
    if file.part.len() > buf.len() {
        return Err(FileRefusal::Full);
    }
    Ok(rewrite(&file, buf))
}
