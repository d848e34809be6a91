// Inspection cards: the plain row that a log holds, and the card that is made of it.
#![tactic(auto)]

ghost use Rattle.std.specs.Prelude.{◌≡◌, Some};
ghost use Rattle.cards.specs.Cards.{is_due, state_text, code_of};

use std::fmt;
use store::{Code, Layer};

mod card;

pub use crate::card::Card;

/// What an inspection came to.
#[derive(Clone, Copy, Debug, PartialEq, Eq)]
pub enum State {
    /// not inspected yet
    Due,
    Passed,
    Failed,
}

impl State {
    /// Whether the card waits for its inspection.
    pub fn is_due(self) -> bool
        ensures { result ≡ is_due self }
    {
        self == State::Due
    }
}

impl fmt::Display for State {
    ghost output = { λ s. Some (state_text s) };

    fn fmt<W: fmt::Write>(&self, f: &mut fmt::Formatter<W>) -> fmt::Result {
        f.write_str(match self {
            State::Due => "due",
            State::Passed => "passed",
            State::Failed => "failed",
        })
    }
}

/// An inspection card's plain numbers: what a log of cards holds.
#[derive(Clone, Copy, Debug, PartialEq, Eq)]
pub struct CardRow {
    pub state: State,
    pub day: u16,
    pub inspector: u16,
}

/// Why a card is not made.
#[derive(Clone, Copy, Debug, PartialEq, Eq)]
pub enum CardRefusal {
    /// an inspector on a card that is due, or none on one that is not
    Inspector,
}

impl CardRefusal {
    /// The number and the layer of the refusal.
    pub fn code(self) -> Code
        ensures { result ≡ code_of self }
    {
        match self {
            CardRefusal::Inspector => Code {
                number: 15,
                layer: Layer::Card,
            },
        }
    }
}
