// The day files that sheets leave, and what is shown of them.
#![tactic(auto)]

use filing::show_file;
use sheet::{LIMIT, file_sheet};
use std::io;

const SKEW: &[u8] =
    b"open 2 8\nbegin 0\nbegin 1\nread 0 0\nread 0 1\nread 1 0\nread 1 1\nwrite 0 0 5\nwrite 1 1 7\ncommit 0\ncommit 1\n";

// Prints bytes in base sixteen, on one line.
fn print_bytes(rt: HostRuntime, bytes: &[u8]) -> io::Result<()> {
    for byte in bytes {
        print!(rt; "{byte:02X} ")?;
    }
    println!(rt; "")
}

// Prints what is shown of the last file in the bytes.
fn show(rt: HostRuntime, name: &str, bytes: &[u8]) -> anyhow::Result<()> {
    println!(rt; "== {name}")?;
    rt.print(show_file(rt.alloc(), bytes)?)?;
    Ok(())
}

// Prints the file that a sheet leaves, and what is shown of it.
fn day(rt: HostRuntime, name: &str, sheet: &[u8]) -> anyhow::Result<()> {
    let bytes = file_sheet(rt.alloc(), sheet)?;
    println!(rt; "== day file: {name}")?;
    print_bytes(rt, bytes.as_slice())?;
    rt.print(show_file(rt.alloc(), bytes.as_slice())?)?;
    Ok(())
}

// A sheet that is one byte too long.
fn long(rt: HostRuntime) -> anyhow::Result<()> {
    let sheet = vec![in rt.alloc(); b' '; LIMIT + 1]?;
    day(rt, "a sheet that is too long", sheet.as_slice())
}

// Two files end to end, with other bytes in front; and the same with its last byte cut off.
fn behind(rt: HostRuntime) -> anyhow::Result<()> {
    let mut bytes = Vec::from_slice(rt.alloc(), b"junk")?;
    bytes.extend_from_slice(file_sheet(rt.alloc(), b"open 3 3\n")?.as_slice())?;
    bytes.extend_from_slice(file_sheet(rt.alloc(), SKEW)?.as_slice())?;
    show(rt, "junk, an empty file, and a file", bytes.as_slice())?;
    for (length, name) in [
        (34, "the same, one byte less"),
        (14, "junk, and an empty file"),
        (9, "nine bytes"),
    ] {
        bytes.truncate(length);
        show(rt, name, bytes.as_slice())?;
    }
    Ok(())
}

fn main(rt: HostRuntime) -> anyhow::Result<()> {
    day(rt, "write skew", SKEW)?;
    day(rt, "no log", b"begin 0\n")?;
    day(rt, "no commit", b"open 256 2048\nbegin 0\nwrite 0 0 1\n")?;
    day(
        rt,
        "commits of three consoles, out of their order by rank, and of an empty transaction",
        b"open 2 8 snapshot\nbegin 0\nread 0 0\nbegin 15\nwrite 15 0 5\ncommit 15\nbegin 1\nwrite 1 1 7\nwrite 1 0 8\nwrite 1 1 9\ncommit 1\nread 0 1\nread 0 0\ncommit 0\nbegin 0\ncommit 0\n",
    )?;
    day(
        rt,
        "the last of two logs",
        b"open 2 8\nbegin 0\ncommit 0\nopen 4 9\nbegin 3\nread 3 3\ncommit 3\n",
    )?;
    long(rt)?;
    behind(rt)
}
