// The edges of the format: lines, words, numbers, bytes, and the length of a sheet.
use crate::show;
use sheet::LIMIT;

// Sheets by their names: on lines, on words, and on numbers and openings.
const SHEETS: [(&str, &str); 14] = [
    ("empty", ""),
    ("one empty line", "\n"),
    ("empty line between", "open 1 1\n\ndrop 0\n"),
    ("last line without its end", "open 1 1\nbegin 0"),
    ("carriage returns", "open 1 1\r\nbegin 0\r\n"),
    ("one space", " "),
    (
        "wrong words",
        "begn 0\nBegin 0\n begin 0\nbegin  0\nbegin 0 \nbegin 0 0\nopen 2 8 latest\nopen 2 8 newest 1\nopen 2 8 \n",
    ),
    (
        "wrong numbers",
        "begin\nbegin x\nbegin -1\nbegin 00\nbegin 07\nbegin 4294967296\nbegin 99999999999999999999\nread 0\nwrite 0 1\nopen 2\nopen 0x2 8\n",
    ),
    ("leftmost fault", "begin x y\nread 0  x\nwrite x\nbegn x\n"),
    (
        "no log yet",
        "begin 0\nread 0 0\nwrite 0 0 1\ncommit 0\ndrop 0\nbegin 0 0\n",
    ),
    (
        "greatest numbers",
        "open 1 2\nbegin 4294967295\nbegin 0\nread 0 4294967295\nwrite 0 0 4294967295\nread 0 0\nwrite 0 0 4294967296\ncommit 0\n",
    ),
    (
        "openings",
        "open 0 4\nopen 1 0\nopen 2 1\nopen 257 300\nopen 1 2049\nopen 4294967295 4294967295\nopen 256 2048\nopen 1 1 snapshot\n",
    ),
    (
        "a refused open keeps the log",
        "open 1 2\nbegin 0\nwrite 0 0 5\nopen 0 4\nopen 2 x\ncommit 0\n",
    ),
    (
        "an open starts afresh",
        "open 1 2\nbegin 0\ncommit 0\nbegin 0\nopen 1 2\ncommit 0\n",
    ),
];

// Each byte in turn behind `open 1 1`, a line for each.
fn every_byte(rt: HostRuntime) -> anyhow::Result<()> {
    let mut sheet = Vec::new(rt.alloc());
    for b in 0..=255u8 {
        sheet.extend_from_slice(b"open 1 1")?;
        sheet.push(b)?;
        sheet.push(b'\n')?;
    }
    show(rt, "every byte", sheet.as_slice())
}

// One line of so many bytes.
fn long_line(rt: HostRuntime, name: &str, bytes: usize) -> anyhow::Result<()> {
    let sheet = vec![in rt.alloc(); b'a'; bytes]?;
    show(rt, name, sheet.as_slice())
}

/// Shows the edges of the format.
pub(crate) fn show_all(rt: HostRuntime) -> anyhow::Result<()> {
    for (name, sheet) in &SHEETS {
        show(rt, name, sheet.as_bytes())?;
    }
    every_byte(rt)?;
    long_line(rt, "32768 bytes", LIMIT)?;
    long_line(rt, "32769 bytes", LIMIT + 1)
}
