// Copies: a file that was read, written again.
use crate::say::filled;
use daywriter::copy_file;
use std::io;

// Two bytes of junk, and the write-skew day.
const JUNK: [u8; 23] = [
    0xFF, 0xFF, 0, 2, 1, 0, 1, 0, 0, 0, 1, 0, 0, 0x52, 0x54, 0, 2, 0, 1, 0, 0, 0, 0x0B,
];

// Where the input ends, of two bytes of junk and the write-skew day, and bytes of the buffer.
const COPIES: [(usize, usize); 6] = [(23, 24), (23, 21), (23, 20), (23, 0), (9, 24), (22, 24)];

/// Shows what is copied and what is refused, and the buffer afterwards.
pub(crate) fn show(rt: HostRuntime) -> io::Result<()> {
    println!(rt; "# copying")?;
    for (end, room) in COPIES {
        print!(rt; "a copy of {end} bytes into {room}: ")?;
        let mut buf = [0xEEu8; 24];
        copy(rt, &JUNK[..end.min(23)], &mut buf[..room.min(24)])?;
    }
    Ok(())
}

fn copy(rt: HostRuntime, input: &[u8], buf: &mut [u8]) -> io::Result<()> {
    let answer = copy_file(input, buf);
    filled(rt, answer, buf)
}
