// What the writer puts into its buffer.
ghost use Rattle.std.specs.Prelude.{◌≡◌, ℕ, ◌+◌, ◌*◌, ◌≤◌, true, length};
ghost use Rattle.dayfile.specs.Format.{below, twos, entry_bytes, trailer_bytes};
ghost use Rattle.daywriter.specs.Writing.{over, FitsBytes};
ghost use Rattle.daywriter.specs.Stands.{wrote};

use crate::{NewEntry, Progress};

// Puts bytes over those of a buffer from a place on.
fn put(buf: &mut [u8], at: usize, src: &[u8])
    requires { at + length src.now ≤ length buf.old }
    ensures { buf.new ≡ over buf.old at src.now }
{
    buf[at..at + src.len()].copy_from_slice(src);
}

// Puts numbers in two bytes each.
fn put_list(buf: &mut [u8], at: usize, xs: &[u32])
    requires room { at + 2 * length xs.now ≤ length buf.old }
    requires small { below 65536 xs.now ≡ true }
    ensures { buf.new ≡ over buf.old at (twos xs.now) }
{
    // Kept: by places; after `chunks_exact_mut` in a `zip` nothing is known of the buffer.
    for (i, x) in xs.iter().enumerate() {
        put(buf, at + 2 * i, &(*x as u16).to_be_bytes());
    }
}

// Puts an entry.
pub(crate) fn put_entry(buf: &mut [u8], at: usize, e: &NewEntry)
    requires room { at + length (entry_bytes (wrote e.now)) ≤ length buf.old }
    requires fits { FitsBytes (wrote e.now) }
    ensures { buf.new ≡ over buf.old at (entry_bytes (wrote e.now)) }
{
    let (reads, writes) = (e.reads.len(), e.writes.len());
    let [high, low] = (e.low as u16).to_be_bytes();
    let head = [e.console as u8, reads as u8, writes as u8, high, low];
    put(buf, at, &head);
    put_list(buf, at + 5, e.reads);
    put_list(buf, at + 5 + 2 * reads, e.writes);
}

// Puts the trailer behind the entries.
pub(crate) fn put_trailer(buf: &mut [u8], progress: Progress)
    requires { progress.at + 10 ≤ length buf.old }
    ensures { buf.new ≡ over buf.old progress.at (trailer_bytes progress.records progress.count progress.at) }
{
    let [rh, rl] = (progress.records as u16).to_be_bytes();
    let [nh, nl] = (progress.count as u16).to_be_bytes();
    let [a, b, c, d] = (progress.at as u32).to_be_bytes();
    let trailer = [0x52, 0x54, rh, rl, nh, nl, a, b, c, d];
    put(buf, progress.at, &trailer);
}
