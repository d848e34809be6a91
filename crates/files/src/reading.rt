// The reader at its edges.
ghost use Rattle.std.specs.Prelude.{◌≤◌};

use crate::say::{SKEW, entries, read};
use std::io;

// Bytes of the write-skew day to change, and to what: console, low mark, versions, mark, records, count, length.
const CHANGES: [(usize, u8); 22] = [
    (0, 0x0F),
    (0, 0x10),
    (4, 0),
    (4, 1),
    (4, 2),
    (3, 1),
    (6, 1),
    (6, 2),
    (10, 1),
    (10, 2),
    (1, 1),
    (1, 3),
    (11, 0x53),
    (12, 0x55),
    (14, 0),
    (14, 1),
    (16, 0),
    (16, 2),
    (20, 10),
    (20, 11),
    (20, 12),
    (17, 1),
];

// The bytes of records and of count in a trailer without entries.
const EMPTY: [[u8; 4]; 6] = [
    [0, 0, 0, 0],
    [0, 1, 0, 0],
    [1, 0, 0, 0],
    [1, 1, 0, 0],
    [0, 1, 0x0F, 0xA0],
    [0, 1, 0x0F, 0xA1],
];

// Two bytes of junk, the write-skew day, and a file without entries.
const TWO: [u8; 33] = [
    0xFF, 0xFF, 0, 2, 1, 0, 1, 0, 0, 0, 1, 0, 0, 0x52, 0x54, 0, 2, 0, 1, 0, 0, 0, 0x0B, 0x52, 0x54,
    0, 1, 0, 0, 0, 0, 0, 0,
];

// Low mark of a second entry, and the version that it noted.
const SECOND: [(u8, u8); 3] = [(2, 2), (3, 2), (2, 3)];

// How many versions an entry noted, and how many it overwrote.
const LISTS: [(u8, u8); 5] = [(64, 0), (65, 0), (0, 16), (0, 17), (64, 16)];

/// Shows what the reader accepts and refuses.
pub(crate) fn show(rt: HostRuntime) -> io::Result<()> {
    println!(rt; "# reading")?;
    shorts(rt)?;
    changes(rt)?;
    trailers(rt)?;
    seconds(rt)?;
    lists(rt)?;
    lengths(rt)?;
    ends(rt)
}

fn shorts(rt: HostRuntime) -> io::Result<()> {
    println!(rt; "9 bytes, 10 bytes, a text of 20 bytes, the write-skew day")?;
    read(rt, &[0x52, 0x54, 0, 1, 0, 0, 0, 0, 0])?;
    read(rt, &[0x52, 0x54, 0, 1, 0, 0, 0, 0, 0, 0])?;
    read(rt, b"a text of 20 bytes..")?;
    read(rt, &SKEW)?;
    entries(rt, &SKEW)
}

// The write-skew day with one byte changed.
fn changes(rt: HostRuntime) -> io::Result<()> {
    for (at, value) in CHANGES {
        let mut file = SKEW;
        print!(rt; "byte {at} as {value:02X}: ")?;
        if let Some(byte) = file.get_mut(at) {
            *byte = value;
        }
        read(rt, &file)?;
    }
    Ok(())
}

// A trailer alone.
fn trailers(rt: HostRuntime) -> io::Result<()> {
    for [a, b, c, d] in EMPTY {
        print!(rt; "no byte of entries, records {a:02X} {b:02X}, count {c:02X} {d:02X}: ")?;
        read(rt, &[0x52, 0x54, a, b, c, d, 0, 0, 0, 0])?;
    }
    Ok(())
}

// A second entry behind a first, which made version 2.
fn seconds(rt: HostRuntime) -> io::Result<()> {
    for (low, version) in SECOND {
        print!(rt; "second entry, low mark {low}, version {version} of 3: ")?;
        read(
            rt,
            &[
                0, 0, 1, 0, 1, 0, 0, 1, 1, 0, 0, low, 0, version, 0x52, 0x54, 0, 2, 0, 2, 0, 0, 0,
                14,
            ],
        )?;
    }
    Ok(())
}

fn lists(rt: HostRuntime) -> io::Result<()> {
    for (reads, writes) in LISTS {
        print!(rt; "noted {reads}, overwritten {writes}: ")?;
        let mut file = [0u8; 179];
        let len = listed(&mut file, reads.min(65), writes.min(17));
        if len <= file.len() {
            read(rt, &file[..len])?;
        }
    }
    Ok(())
}

// Puts a file with one entry, whose versions are all version 0, into a buffer of zeros, and answers its length.
fn listed(file: &mut [u8; 179], reads: u8, writes: u8) -> usize
    requires { (reads ≤ 65) × (writes ≤ 17) }
{
    let len = 5 + 2 * usize::from(reads) + 2 * usize::from(writes);
    file[1] = reads;
    file[2] = writes;
    file[4] = 1;
    let trailer = [0x52, 0x54, 0, 1, 0, 1, 0, 0, 0, len as u8];
    file[len..len + 10].copy_from_slice(&trailer);
    len + 10
}

fn lengths(rt: HostRuntime) -> io::Result<()> {
    println!(rt; "an entry cut in its head, one cut in its versions, one byte left over")?;
    read(rt, &[0, 2, 1, 0x52, 0x54, 0, 2, 0, 1, 0, 0, 0, 3])?;
    read(
        rt,
        &[
            0, 2, 1, 0, 1, 0, 0, 0, 1, 0, 0x52, 0x54, 0, 2, 0, 1, 0, 0, 0, 10,
        ],
    )?;
    read(
        rt,
        &[
            0, 2, 1, 0, 1, 0, 0, 0, 1, 0, 0, 0, 0x52, 0x54, 0, 2, 0, 1, 0, 0, 0, 12,
        ],
    )
}

fn ends(rt: HostRuntime) -> io::Result<()> {
    println!(rt;
        "two bytes of junk and two files end to end, what is in front of the second, what is in front of the first"
    )?;
    read(rt, &TWO)?;
    read(rt, &TWO[..23])?;
    read(rt, &TWO[..2])
}
