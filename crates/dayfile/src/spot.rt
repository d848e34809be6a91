// Where an entry stands in a file.
ghost use Rattle.std.specs.Prelude.{◌≡◌};
ghost use Rattle.dayfile.specs.Format.{fits};

use crate::{VersionList, head_fits};

/// Where an entry stands in a file: its place, from 1 on, and how many versions were made before it.
#[derive(Clone, Copy)]
pub struct Spot {
    pub place: u32,
    pub bound: u32,
}

impl Spot {
    /// Whether the fields of an entry that stands here are in range.
    pub fn fits<V: VersionList>(self, console: u32, low: u32, reads: V, writes: V) -> bool
        ensures { result ≡ fits self.place self.bound (record { console = console; low = low; reads = V.versions reads; writes = V.versions writes }) }
    {
        head_fits(
            console,
            reads.how_many(),
            writes.how_many(),
            low,
            self.place,
        ) && reads.all_below(self.bound)
            && writes.all_below(self.bound)
    }
}
