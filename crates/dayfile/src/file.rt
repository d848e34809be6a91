// A file that was read, and a walk over its entries.
ghost use Rattle.std.specs.Prelude.{◌+◌, ◌*◌, ◌^◌, ◌<◌, ◌≤◌};

use crate::Spot;

/// A day file: the part of the input that it fills, where that begins in the input, and its trailer's numbers.
// Kept: that it is whole stands in clauses; a ghost field would ask more of whoever builds one of its public fields.
#[derive(Clone, Copy)]
pub struct DayFile<'a> {
    pub part: &'a [u8],
    pub offset: usize,
    pub records: u16,
    pub count: u16,
}

/// A walk over a file's entries: how many are left, where the next stands, and the bytes from it on.
#[derive(Clone, Copy)]
pub struct Entries<'a> {
    pub(crate) rest: &'a [u8],
    pub(crate) left: u16,
    pub(crate) spot: Spot,
    ghost placed: { spot.place + left ≤ 65536 },
    ghost bounded: { spot.bound + 16 * left < 2 ^ 32 },
}
