// Lists of versions, as a file keeps them and as a caller does.
ghost use Rattle.std.specs.Prelude.{◌≡◌, ℕ, ◌/◌, List, length};
ghost use Rattle.std.specs.Iterator.{YieldsFirst, item_count};
ghost use Rattle.dayfile.specs.Format.{below, pairs};
ghost use Rattle.dayfile.specs.Said.{numbers_of, Gives};

/// The numbers that pairs of bytes are, in turn, high byte first. A last byte without another is passed over.
#[derive(Clone, Copy)]
pub struct Pairs<'a>(&'a [u8]);

impl<'a> Pairs<'a> {
    /// The numbers of these bytes.
    #[tactic(auto, using(crate::proofs::Bytes::pairs_in_order))]
    pub fn of(bytes: &'a [u8]) -> Pairs<'a>
        ensures { Gives result (pairs bytes.now) }
    {
        Pairs(bytes)
    }
}

impl Iterator for Pairs<'_> {
    type Item = u32;

    ghost next_gives = { YieldsFirst numbers_of };

    ghost remaining = { item_count numbers_of };

    fn next(&mut self) -> Option<u32> {
        let (pair, rest) = self.0.split_first_chunk()?;
        self.0 = rest;
        Some(u32::from(u16::from_be_bytes(*pair)))
    }
}

/// A list of versions, whatever it is kept in.
pub trait VersionList: Copy {
    ghost versions: { Self → List ℕ };

    /// How many there are.
    fn how_many(self) -> usize
        ensures { result ≡ length (versions self) };

    /// Whether each is below a bound.
    fn all_below(self, bound: u32) -> bool
        ensures { result ≡ below bound (versions self) };
}

impl VersionList for Pairs<'_> {
    ghost versions = { numbers_of };

    #[tactic(auto, using(crate::proofs::Bytes::length_pairs))]
    fn how_many(self) -> usize {
        self.0.len() / 2
    }

    fn all_below(mut self, bound: u32) -> bool {
        self.all(|version| version < bound)
    }
}

impl VersionList for &[u32] {
    ghost versions = { λ list. list.now };

    fn how_many(self) -> usize {
        self.len()
    }

    fn all_below(self, bound: u32) -> bool {
        self.iter().all(|version| *version < bound)
    }
}
