//! The call sheet: its lines are read, answered by a log, and printed or put into a day file.
#![tactic(auto)]

ghost use Rattle.std.specs.Prelude.{◌≡◌, ℕ, IfOk, string_bytes};
ghost use Rattle.sheet.specs.Outputs.{output_of, file_of};

use crate::items::read_lines;
use crate::play::play;
use crate::print::{print_lines, print_order};
use filing::write_day;
use std::alloc::{AllocError, Global};

mod fault;
mod items;
mod line;
mod numeral;
mod opening;
mod play;
mod print;
mod request;
mod response;
mod token;

/// A sheet of more bytes is not read.
pub const LIMIT: usize = 32768;

/// What a call sheet prints: a line for each of its lines, and where a log is open at the end, the commits by rank.
/// Any bytes may come; a sheet of more than 32,768 is not read, and prints `long`. Fails where there is no memory.
pub fn answer_sheet(heap: Global, sheet: &[u8]) -> Result<String, AllocError>
    ensures { IfOk result (λ t. string_bytes t ≡ output_of sheet.now) }
{
    if sheet.len() > LIMIT {
        return String::from_str(heap, "long\n");
    }
    let played = play(heap, read_lines(heap, sheet)?.as_slice())?;
    let mut text = String::new(heap);
    print_lines(&mut text, played.responses.as_slice())?;
    if let Some(ending) = &played.ending {
        print_order(&mut text, ending.stamps.as_slice())?;
    }
    Ok(text)
}

/// The day file of the log that is open at the end of a call sheet: no bytes where none is. Any bytes may come; for a sheet
/// of more than 32,768 it is `long`. Fails where there is no memory.
pub fn file_sheet(heap: Global, sheet: &[u8]) -> Result<Vec<u8>, AllocError>
    ensures { IfOk result (λ v. v.items ≡ file_of sheet.now) }
{
    if sheet.len() > LIMIT {
        return Vec::from_slice(heap, b"long\n");
    }
    let played = play(heap, read_lines(heap, sheet)?.as_slice())?;
    match &played.ending {
        Some(ending) => write_day(heap, &ending.day),
        None => Ok(Vec::new(heap)),
    }
}
