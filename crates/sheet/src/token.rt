// A word of a line as a token.
ghost use Rattle.std.specs.Prelude.{◌≡◌};
ghost use Rattle.sheet.specs.Tokens.{word_of, Fits};

use crate::numeral::all_digits;

// Kept: an enum whose cases borrow the sheet's bytes, a rule of the project.
/// A word of a line, with its column.
#[derive(Clone, Copy)]
pub(crate) enum Token<'a> {
    /// not only digits
    Name(&'a [u8], usize),
    /// only digits
    Digits(&'a [u8], usize),
    /// nothing between two spaces, or at an end of the line
    Empty(usize),
}

impl<'a> Token<'a> {
    /// The bytes of the word.
    pub(crate) fn bytes(self) -> &'a [u8]
        ensures { result.now ≡ (word_of self.entry).0 }
    {
        match self {
            Token::Name(bytes, _) | Token::Digits(bytes, _) => bytes,
            Token::Empty(_) => &[],
        }
    }

    /// The column that the word begins at.
    pub(crate) fn column(self) -> usize
        ensures { result ≡ (word_of self.entry).1 }
    {
        match self {
            Token::Name(_, column) | Token::Digits(_, column) | Token::Empty(column) => column,
        }
    }
}

/// The token of a word at a column.
pub(crate) fn token_at<'a>(bytes: &'a [u8], column: usize) -> Token<'a>
    ensures word { word_of result ≡ (bytes.now, column) }
    ensures case { Fits result }
{
    if bytes.is_empty() {
        Token::Empty(column)
    } else if all_digits(bytes) {
        Token::Digits(bytes, column)
    } else {
        Token::Name(bytes, column)
    }
}
