// What a line says: what a call was answered.
use dayfile::{DayFile, Entry, FileRefusal, Pairs};
use std::io;

/// The file of the write-skew day: one entry, two records.
pub(crate) const SKEW: [u8; 21] = [
    0, 2, 1, 0, 1, 0, 0, 0, 1, 0, 0, 0x52, 0x54, 0, 2, 0, 1, 0, 0, 0, 0x0B,
];

/// Prints a refusal.
pub(crate) fn refused(rt: HostRuntime, x: FileRefusal) -> io::Result<()> {
    let number = x.code().number;
    println!(rt; "no {number}")
}

/// Reads bytes, and prints what the reader answers.
pub(crate) fn read(rt: HostRuntime, input: &[u8]) -> io::Result<()> {
    match DayFile::read(input) {
        Ok(file) => {
            let len = file.part.len();
            println!(rt;
                "ok, {len} bytes at {}, records {}, entries {}",
                file.offset, file.records, file.count
            )
        }
        Err(x) => refused(rt, x),
    }
}

/// Prints the entries of a file, one to a line.
pub(crate) fn entries(rt: HostRuntime, input: &[u8]) -> io::Result<()> {
    if let Ok(file) = DayFile::read(input) {
        for e in file.entries() {
            entry(rt, &e)?;
        }
    }
    Ok(())
}

fn entry(rt: HostRuntime, e: &Entry) -> io::Result<()> {
    print!(rt; "  console {}, low mark {}, noted", e.console, e.low)?;
    numbers(rt, e.noted())?;
    print!(rt; ", overwrote")?;
    numbers(rt, e.overwritten())?;
    println!(rt; "")
}

fn numbers(rt: HostRuntime, versions: Pairs) -> io::Result<()> {
    for v in versions {
        print!(rt; " {v}")?;
    }
    Ok(())
}

// Kept: where to print, and a buffer, as parameters; a struct of the two would be made anew for each call.
/// Prints what a call that fills a buffer answered, and the buffer in base sixteen.
pub(crate) fn filled(
    rt: HostRuntime,
    answer: Result<usize, FileRefusal>,
    buf: &[u8],
) -> io::Result<()> {
    match answer {
        Ok(len) => println!(rt; "ok, {len} bytes")?,
        Err(x) => refused(rt, x)?,
    }
    print!(rt; "  buffer")?;
    for b in buf {
        print!(rt; " {b:02X}")?;
    }
    println!(rt; "")
}
