// The states of a file under writing.
ghost use Rattle.std.specs.Prelude.{◌+◌, ◌*◌, ◌≤◌};

/// How far a file under writing has come: its records, its entries so far, the versions made, and the bytes of the entries.
/// Plain numbers, so that a start that is refused leaves no buffer behind.
#[derive(Clone, Copy)]
pub struct Progress {
    pub(crate) records: u32,
    pub(crate) count: u32,
    pub(crate) made: u32,
    pub(crate) at: usize,
    ghost few: { records ≤ 256 },
    ghost short: { count ≤ 4000 },
    ghost bounded: { made ≤ 256 + 16 * count },
    ghost extent: { at ≤ 165 * count },
}

/// A file under writing, in a lent buffer: it takes entries.
// Kept: no Model, since the clauses name the loan of the buffer, which a Model would hide.
#[derive(Drop)]
pub struct OpenFile<'a> {
    pub(crate) buf: &'a mut [u8],
    pub(crate) progress: Progress,
}

/// A closed file, in a lent buffer: it gives its bytes.
#[derive(Drop)]
pub struct ClosedFile<'a> {
    pub(crate) buf: &'a mut [u8],
    // Kept: the lent buffer goes back to the caller whole, so the file's length stands beside it.
    pub(crate) len: usize,
}
