// The words in turn.
ghost use Rattle.std.specs.Prelude.{◌≡◌, ℕ, ◌+◌, length};
ghost use Rattle.std.specs.Iterator.{item_count};
ghost use Rattle.sheet.specs.Cuts.{words_of};
ghost use Rattle.sheet.specs.Walks.{to_come, Gives};

use super::Words;
use crate::token::{Token, token_at};

impl<'a> Words<'a> {
    /// All words of a line.
    pub(crate) fn of(line: &'a [u8]) -> Words<'a>
        ensures words { to_come result ≡ words_of line.now }
        ensures end { result.end ≡ length line.now + 1 }
    {
        Words {
            rest: Some(line),
            end: line.len() + 1,
        }
    }
}

impl<'a> Iterator for Words<'a> {
    type Item = Token<'a>;

    ghost next_gives = { Gives };

    ghost remaining = { item_count to_come };

    fn next(&mut self) -> Option<Token<'a>> {
        let rest = self.rest?;
        let column = self.end - rest.len();
        let cut = rest.iter().position(|b| *b == b' ').unwrap_or(rest.len());
        self.rest = rest.get(cut + 1..);
        Some(token_at(&rest[..cut], column))
    }
}
