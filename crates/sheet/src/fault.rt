// Why a line is refused.
ghost use Rattle.std.specs.Prelude.{◌≡◌, Some};
ghost use Rattle.certifier.specs.Refusals.{code_of};
ghost use Rattle.sheet.specs.Faults.{flaw_of, passed};
ghost use Rattle.sheet.specs.Printing.{flaw_text};

use certifier::LogRefusal;
use std::fmt;
use store::{Code, Layer};

/// Why a line is refused: a fault of its own, with the column of the word, or a refusal from below, which keeps its
/// number and its layer.
#[derive(Clone, Copy)]
pub(crate) enum Fault {
    /// the word is wrong, empty or surplus
    WrongWord(usize),
    /// the number is wrong or missing
    WrongNumber(usize),
    /// no log is open
    NoLog,
    /// the numbers of an open are out of range
    Table,
    /// a refusal of the log, passed up
    Log(LogRefusal),
}

impl Fault {
    /// The number and the layer of the fault.
    pub(crate) fn code(self) -> Code
        ensures { result ≡ (flaw_of self).code }
    {
        let (number, layer) = match self {
            Fault::WrongWord(_) => (20, Layer::Sheet),
            Fault::WrongNumber(_) => (21, Layer::Sheet),
            Fault::NoLog => (22, Layer::Sheet),
            Fault::Table => (12, Layer::Opening),
            Fault::Log(refusal) => return refusal.code(),
        };
        Code { number, layer }
    }

    /// Where in its line a fault of the line stands.
    pub(crate) fn column(self) -> Option<usize>
        ensures { result ≡ (flaw_of self).column }
    {
        match self {
            Fault::WrongWord(column) | Fault::WrongNumber(column) => Some(column),
            Fault::NoLog => Some(1),
            Fault::Table | Fault::Log(_) => None,
        }
    }
}

impl From<LogRefusal> for Fault {
    ghost from_gives = { λ e f. flaw_of f ≡ passed (code_of e) };

    fn from(e: LogRefusal) -> Fault {
        Fault::Log(e)
    }
}

impl fmt::Display for Fault {
    ghost output = { λ f. Some (flaw_text (flaw_of f)) };

    fn fmt<W: fmt::Write>(&self, f: &mut fmt::Formatter<W>) -> fmt::Result {
        let number = self.code().number;
        match self.column() {
            Some(column) => write!(f, "fault {number} {column}"),
            None => write!(f, "no {number}"),
        }
    }
}
