// What a line asks for.
ghost use Rattle.std.specs.Prelude.{◌≡◌};
ghost use Rattle.sheet.specs.Faults.{told};
ghost use Rattle.sheet.specs.Requests.{verb_of, kind_of, number_at, verb_at, kind_at, end_at, args_of, request_of};
ghost use Rattle.sheet.specs.Walks.{to_come, Passed};

use crate::fault::Fault;
use crate::line::Words;
use crate::numeral::number;
use certifier::Call;

/// The first word of a line.
#[derive(Clone, Copy)]
pub(crate) enum Verb {
    Open,
    Begin,
    Read,
    Write,
    Commit,
    Drop,
}

/// The kind of store that a log stands on.
#[derive(Clone, Copy)]
pub(crate) enum LogKind {
    Newest,
    Snapshot,
}

// Kept: both cases are requests, so an enum of its own and no Result.
/// What a well-formed line asks for.
#[derive(Clone, Copy)]
pub(crate) enum Request {
    /// a fresh log of so many records, with places for so many versions, above a store of the kind
    Open(u32, u32, LogKind),
    /// a call on the log that is open
    Call(Call<u32>),
}

// The verb that a word names.
// Kept: an Option and no `FromStr`, since a word is any bytes, and a wrong one is refused with its column, which is not known here.
fn verb_in(bytes: &[u8]) -> Option<Verb>
    ensures { result ≡ verb_of bytes.now }
{
    match bytes {
        b"open" => Some(Verb::Open),
        b"begin" => Some(Verb::Begin),
        b"read" => Some(Verb::Read),
        b"write" => Some(Verb::Write),
        b"commit" => Some(Verb::Commit),
        b"drop" => Some(Verb::Drop),
        _ => None,
    }
}

// The kind that a word names.
fn kind_in(bytes: &[u8]) -> Option<LogKind>
    ensures { result ≡ kind_of bytes.now }
{
    match bytes {
        b"newest" => Some(LogKind::Newest),
        b"snapshot" => Some(LogKind::Snapshot),
        _ => None,
    }
}

// Kept: three methods say `Passed`, since each takes one word, which is all that it says.
impl<'a> Words<'a> {
    // The verb that a line begins with.
    fn verb(&mut self) -> Result<Verb, Fault>
        ensures answer { told result ≡ verb_at (to_come self.old) self.old.end }
        ensures passed { Passed self.old self.new }
    {
        let word = self.next().ok_or(Fault::WrongWord(self.end))?;
        verb_in(word.bytes()).ok_or(Fault::WrongWord(word.column()))
    }

    // The number that is wanted next.
    fn number(&mut self) -> Result<u32, Fault>
        ensures answer { told result ≡ number_at (to_come self.old) self.old.end }
        ensures passed { Passed self.old self.new }
    {
        let word = self.next().ok_or(Fault::WrongNumber(self.end))?;
        if word.bytes().is_empty() {
            return Err(Fault::WrongWord(word.column()));
        }
        number(word.bytes()).ok_or(Fault::WrongNumber(word.column()))
    }

    // The kind that an `open` may end in: one so far.
    fn kind(&mut self) -> Result<LogKind, Fault>
        ensures answer { told result ≡ kind_at (to_come self.old) }
        ensures passed { Passed self.old self.new }
    {
        match self.next() {
            Some(word) => kind_in(word.bytes()).ok_or(Fault::WrongWord(word.column())),
            None => Ok(LogKind::Newest),
        }
    }

    // That no word follows.
    fn end(&mut self) -> Result<(), Fault>
        ensures { told result ≡ end_at (to_come self.old) }
    {
        match self.next() {
            Some(word) => Err(Fault::WrongWord(word.column())),
            None => Ok(()),
        }
    }
}

// The arguments that a verb wants, and no more.
fn args_in(words: &mut Words, verb: Verb) -> Result<Request, Fault>
    ensures { told result ≡ args_of verb (to_come words.old) words.old.end }
{
    let request = match verb {
        Verb::Open => Request::Open(words.number()?, words.number()?, words.kind()?),
        Verb::Begin => Request::Call(Call::Begin(words.number()?)),
        Verb::Read => Request::Call(Call::Read(words.number()?, words.number()?)),
        Verb::Write => Request::Call(Call::Write(
            words.number()?,
            words.number()?,
            words.number()?,
        )),
        Verb::Commit => Request::Call(Call::Commit(words.number()?)),
        Verb::Drop => Request::Call(Call::Drop(words.number()?)),
    };
    words.end()?;
    Ok(request)
}

/// What a line asks for, or its leftmost fault.
pub(crate) fn request_in(line: &[u8]) -> Result<Request, Fault>
    ensures { told result ≡ request_of line.now }
{
    let mut words = Words::of(line);
    let verb = words.verb()?;
    args_in(&mut words, verb)
}
