// Numbers that look thrown and are the same in every run.
#![tactic(auto)]

ghost use Rattle.std.specs.Prelude.{◌≡◌, ℕ, ◌%◌, ◌<◌};
ghost use Rattle.dice.specs.Throws.{next_seed, upper_bits};

use std::marker::Model;

/// Dice that give the same row of throws from the same seed.
#[derive(Clone, Copy)]
pub struct Dice {
    seed: u32,
}

// Clauses see the seed.
impl Model for Dice {
    ghost Value = { ℕ };

    ghost view = { λ d. d.seed };

    ghost inverse = { λ n. record { seed = n } };
}

impl Dice {
    /// Dice whose throws begin from this seed.
    pub fn new(seed: u32) -> Dice
        ensures { result ≡ seed }
    {
        Dice { seed }
    }

    /// A throw: a number of 24 bits.
    pub fn roll(&mut self) -> u32
        ensures seed { self.new ≡ next_seed self.old }
        ensures thrown { result ≡ upper_bits self.new }
    {
        self.seed = self.seed.wrapping_mul(1664525).wrapping_add(1013904223);
        self.seed >> 8
    }

    /// A throw as a number below `count`; 0 where that is 0.
    pub fn below(&mut self, count: u32) -> u32
        ensures seed { self.new ≡ next_seed self.old }
        ensures below { 0 < count → result ≡ upper_bits self.new % count }
        ensures none { count ≡ 0 → result ≡ 0 }
    {
        self.roll() % count.max(1)
    }
}
