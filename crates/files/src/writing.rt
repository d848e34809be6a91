// The writer at its edges.
use crate::say::{filled, read, refused};
use dayfile::FileRefusal;
use daywriter::{NewEntry, OpenFile, Progress, write_file};
use std::io;

// Bytes of a buffer, and records.
const STARTS: [(usize, u32); 6] = [
    (9, 0),
    (10, 0),
    (10, 1),
    (10, 256),
    (10, 257),
    (10, 4_294_967_295),
];

// Records, and bytes of a buffer, for the write-skew day.
const ROOMS: [(u32, usize); 8] = [
    (2, 24),
    (2, 21),
    (2, 20),
    (2, 10),
    (2, 9),
    (0, 12),
    (257, 12),
    (1, 12),
];

// Console and low mark of an entry without versions.
const HEADS: [(u32, u32); 8] = [
    (15, 1),
    (16, 1),
    (256, 1),
    (4_294_967_295, 1),
    (0, 0),
    (0, 1),
    (0, 2),
    (0, 65537),
];

// How many versions an entry noted, how many it overwrote, and which version each of them is.
const LISTS: [(usize, usize, u32); 9] = [
    (64, 0, 0),
    (65, 0, 0),
    (0, 16, 0),
    (0, 17, 0),
    (1, 0, 1),
    (1, 0, 2),
    (0, 1, 1),
    (0, 1, 2),
    (1, 0, 65536),
];

// Low mark and noted version of a second entry, and bytes of the buffer.
const SECOND: [(u32, u32, usize); 4] = [(2, 2, 24), (2, 3, 24), (3, 2, 24), (2, 2, 23)];

/// Shows what the writer accepts and refuses, and what it leaves in its buffer.
pub(crate) fn show(rt: HostRuntime) -> io::Result<()> {
    println!(rt; "# writing")?;
    starts(rt)?;
    rooms(rt)?;
    heads(rt)?;
    lists(rt)?;
    seconds(rt)?;
    states(rt)?;
    full_day(rt)
}

fn starts(rt: HostRuntime) -> io::Result<()> {
    for (room, records) in STARTS {
        print!(rt; "start in {room} bytes, records {records}: ")?;
        match Progress::start(room, records) {
            Ok(_) => println!(rt; "ok")?,
            Err(x) => refused(rt, x)?,
        }
    }
    Ok(())
}

// The write-skew day into a buffer of EE.
fn rooms(rt: HostRuntime) -> io::Result<()> {
    for (records, room) in ROOMS {
        print!(rt; "the write-skew day with records {records} in {room} bytes: ")?;
        let mut buf = [0xEEu8; 24];
        skew_into(rt, records, &mut buf[..room.min(24)])?;
    }
    Ok(())
}

fn skew_into(rt: HostRuntime, records: u32, buf: &mut [u8]) -> io::Result<()> {
    let e = NewEntry {
        console: 0,
        low: 1,
        reads: &[0, 1],
        writes: &[0],
    };
    let answer = write_file(buf, records, &[e]);
    filled(rt, answer, buf)
}

// One entry in a file of two records.
fn one(rt: HostRuntime, e: &NewEntry) -> io::Result<()> {
    let mut buf = [0u8; 200];
    match write_file(&mut buf, 2, &[*e]) {
        Ok(len) => println!(rt; "ok, {len} bytes"),
        Err(x) => refused(rt, x),
    }
}

fn heads(rt: HostRuntime) -> io::Result<()> {
    for (console, low) in HEADS {
        print!(rt; "write console {console}, low mark {low}: ")?;
        one(
            rt,
            &NewEntry {
                console,
                low,
                reads: &[],
                writes: &[],
            },
        )?;
    }
    Ok(())
}

fn lists(rt: HostRuntime) -> io::Result<()> {
    for (reads, writes, version) in LISTS {
        print!(rt; "write noted {reads}, overwritten {writes}, each version {version} of 2: ")?;
        let many = [version; 65];
        one(
            rt,
            &NewEntry {
                console: 0,
                low: 1,
                reads: &many[..reads.min(65)],
                writes: &many[..writes.min(65)],
            },
        )?;
    }
    Ok(())
}

// Two entries: a fault of the second refuses the whole file.
fn seconds(rt: HostRuntime) -> io::Result<()> {
    for (low, version, room) in SECOND {
        print!(rt;
            "write a second entry, low mark {low}, version {version} of 3, in {room} bytes: "
        )?;
        let mut buf = [0xEEu8; 24];
        second_into(rt, low, version, &mut buf[..room.min(24)])?;
    }
    Ok(())
}

fn second_into(rt: HostRuntime, low: u32, version: u32, buf: &mut [u8]) -> io::Result<()> {
    let first = NewEntry {
        console: 0,
        low: 1,
        reads: &[],
        writes: &[0],
    };
    let second = NewEntry {
        console: 1,
        low,
        reads: &[version],
        writes: &[],
    };
    let answer = write_file(buf, 2, &[first, second]);
    filled(rt, answer, buf)
}

// A file by its states, in a buffer as long as was checked, and in two shorter ones.
fn states(rt: HostRuntime) -> io::Result<()> {
    if let Ok(begun) = Progress::start(24, 2) {
        in_turn(rt, begun, &mut [0xEE; 24])?;
        in_turn(rt, begun, &mut [0xEE; 10])?;
        in_turn(rt, begun, &mut [0xEE; 9])?;
    }
    Ok(())
}

// Adds an entry out of range, one that is in range, and the second again.
fn in_turn(rt: HostRuntime, begun: Progress, buf: &mut [u8]) -> io::Result<()> {
    println!(rt; "add console 16, add the write-skew day's entry, add it again, close")?;
    let mut file = begun.open(buf);
    added(rt, &mut file, 16, 1)?;
    added(rt, &mut file, 0, 1)?;
    added(rt, &mut file, 0, 1)?;
    let (buf, len) = file.close().bytes();
    filled(rt, Ok(len), buf)
}

// Adds an entry like that of the write-skew day.
fn added(rt: HostRuntime, file: &mut OpenFile, console: u32, low: u32) -> io::Result<()> {
    let e = NewEntry {
        console,
        low,
        reads: &[0, 1],
        writes: &[0],
    };
    match file.add(&e) {
        Ok(()) => println!(rt; "ok"),
        Err(x) => refused(rt, x),
    }
}

// 4,000 entries of five bytes, and one more, for which there would be room.
fn full_day(rt: HostRuntime) -> io::Result<()> {
    let mut buf = [0u8; 20021];
    if let Ok(begun) = Progress::start(20021, 2) {
        let mut file = begun.open(&mut buf);
        let taken = add_empty(&mut file, 4000);
        println!(rt;
            "of 4,000 empty entries {taken} are taken; then low marks 4,001 and 4,002, and close"
        )?;
        added(rt, &mut file, 0, 4001)?;
        added(rt, &mut file, 0, 4002)?;
        let (buf, len) = file.close().bytes();
        if len <= buf.len() {
            read(rt, &buf[..len])?;
        }
    }
    Ok(())
}

// Adds so many entries without versions, and answers how many are taken.
fn add_empty(file: &mut OpenFile, n: usize) -> usize {
    let e = NewEntry {
        console: 0,
        low: 1,
        reads: &[],
        writes: &[],
    };
    (0..n).filter(|_| file.add(&e).is_ok()).count()
}
