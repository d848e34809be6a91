// A card, made of a row where its inspector is as the rule says.
ghost use Rattle.std.specs.Prelude.{◌≡◌};
ghost use Rattle.cards.specs.Cards.{Sound};

use crate::{CardRefusal, CardRow};

/// An inspection card. Its inspector is 0 exactly when it is due.
#[derive(Clone, Copy)]
pub struct Card {
    row: CardRow,
    ghost sound: { Sound row },
}

impl Card {
    ghost use Rattle.store.specs.Refusals.{answer_by};
    ghost use Rattle.cards.specs.Cards.{code_of, card_of};
    ghost use Rattle.cards.specs.Rows.{row_of};

    /// The card of a row. Refused: 15 where its inspector is not 0 exactly when it is due.
    pub fn new(row: CardRow) -> Result<Card, CardRefusal>
        ensures { answer_by row_of code_of result ≡ card_of row }
    {
        if (row.inspector == 0) != row.state.is_due() {
            return Err(CardRefusal::Inspector);
        }
        Ok(Card { row })
    }

    /// The plain row of the card, as a log holds it.
    pub fn row(&self) -> CardRow
        ensures { result ≡ row_of self.now }
    {
        self.row
    }
}
