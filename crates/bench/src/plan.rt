// What the days are made of.

/// Who works on a day.
#[derive(Clone, Copy)]
pub(crate) enum Shape {
    /// One console, a transaction after the other.
    Alone,
    /// Sixteen consoles that make a call each in turn, every one at another place of its transaction than the next.
    Wide,
    /// One console that writes, and afterwards one that reads what stood before all of it.
    Chains,
}

/// A day of work on a fresh log.
#[derive(Clone, Copy)]
pub(crate) struct Plan {
    pub(crate) name: &'static str,
    pub(crate) shape: Shape,
    /// a power of two
    pub(crate) records: u32,
    pub(crate) room: u32,
    /// reads of a transaction; by `Chains` the rounds of reads over all records; `Wide` has four reads always
    // Kept: by a `Shape` with fields a transaction of `crowded snapshot` took 97 ns and not 72, of `wide snapshot` 88 and not 78.
    pub(crate) reads: u32,
    /// of so many transactions of a console, a power of two, the first writes
    pub(crate) every: u32,
    /// transactions of each console
    pub(crate) turns: u32,
    /// days of a measured round
    pub(crate) days: u32,
}

impl Plan {
    /// The record that a number stands for.
    pub(crate) fn record(&self, number: u32) -> u32 {
        number & self.records.saturating_sub(1)
    }

    /// Whether a console's transaction writes, by its turn.
    pub(crate) fn writes(&self, turn: u32) -> bool {
        turn & self.every.saturating_sub(1) == 0
    }

    /// What a round's time is divided by: its transactions, or by `Chains` the reads of the old reader.
    pub(crate) fn units(&self) -> u64 {
        let each = match self.shape {
            Shape::Alone => u64::from(self.turns),
            Shape::Wide => u64::from(self.turns).wrapping_mul(16),
            Shape::Chains => u64::from(self.reads).wrapping_mul(u64::from(self.records)),
        };
        each.wrapping_mul(u64::from(self.days))
    }
}

/// One console: four reads and a write.
pub(crate) const ALONE: Plan = Plan {
    name: "alone",
    shape: Shape::Alone,
    records: 256,
    room: 2048,
    reads: 4,
    every: 1,
    turns: 1792,
    days: 16,
};

/// Sixteen consoles on many records.
pub(crate) const WIDE: Plan = Plan {
    name: "wide",
    shape: Shape::Wide,
    records: 256,
    room: 2048,
    reads: 4,
    every: 1,
    turns: 112,
    days: 16,
};

/// Sixteen consoles on four records.
pub(crate) const CROWDED: Plan = Plan {
    name: "crowded",
    shape: Shape::Wide,
    records: 4,
    room: 2048,
    reads: 4,
    every: 1,
    turns: 112,
    days: 16,
};

/// A reader of the first versions, below 511 later ones of each record.
pub(crate) const CHAINS: Plan = Plan {
    name: "chains",
    shape: Shape::Chains,
    records: 4,
    room: 2048,
    reads: 1000,
    every: 1,
    turns: 2044,
    days: 1,
};

/// The most commits that a day has, with a write in every fourth.
pub(crate) const FULL_DAY: Plan = Plan {
    name: "full-day",
    shape: Shape::Alone,
    records: 256,
    room: 2048,
    reads: 2,
    every: 4,
    turns: 4000,
    days: 8,
};

/// Days that differ from the others in one number, to see what it costs.
pub(crate) const SCALES: [Plan; 12] = [
    Plan {
        name: "room-512",
        room: 512,
        turns: 256,
        days: 64,
        ..ALONE
    },
    Plan {
        name: "room-1024",
        room: 1024,
        turns: 768,
        days: 32,
        ..ALONE
    },
    Plan {
        name: "reads-1",
        reads: 1,
        ..ALONE
    },
    Plan {
        name: "reads-16",
        reads: 16,
        ..ALONE
    },
    Plan {
        name: "reads-32",
        reads: 32,
        ..ALONE
    },
    Plan {
        name: "reads-64",
        reads: 64,
        ..ALONE
    },
    Plan {
        name: "chains-0",
        turns: 0,
        ..CHAINS
    },
    Plan {
        name: "chains-16",
        turns: 64,
        ..CHAINS
    },
    Plan {
        name: "chains-128",
        turns: 512,
        ..CHAINS
    },
    Plan {
        name: "commits-500",
        turns: 500,
        days: 64,
        ..FULL_DAY
    },
    Plan {
        name: "commits-1000",
        turns: 1000,
        days: 32,
        ..FULL_DAY
    },
    Plan {
        name: "commits-2000",
        turns: 2000,
        days: 16,
        ..FULL_DAY
    },
];
