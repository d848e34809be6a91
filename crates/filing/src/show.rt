// The last day file in some bytes, printed.
ghost use Rattle.std.specs.Prelude.{◌≡◌, IfOk, string_bytes, OnOk};
ghost use Rattle.dayfile.specs.Reading.{Whole, entries_of};
ghost use Rattle.dayfile.specs.Refusals.{code_of};
ghost use Rattle.dayfile.specs.Said.{said, shape_of};
ghost use Rattle.store.specs.Refusals.Answer.{gives, refuses};
ghost use Rattle.filing.specs.Appending.{Appends};
ghost use Rattle.filing.specs.Showing.{head_text, entry_text, said_text, answer_text, shown_of};

use crate::numbers::print_each;
use dayfile::{DayFile, Entry, FileRefusal};
use std::alloc::{AllocError, Global};

// Prints the line of the entry at a place.
fn print_entry(text: &mut String, place: usize, entry: &Entry) -> Result<(), AllocError>
    ensures { OnOk result (Appends text.old text.new (entry_text place (said entry.now))) }
{
    write!(
        text,
        "{place} console {} low {} reads",
        entry.console, entry.low
    )?;
    print_each(text, entry.noted())?;
    text.push_str(" writes")?;
    print_each(text, entry.overwritten())?;
    text.push_str("\n")?;
    Ok(())
}

// Prints the lines of a file's entries.
fn print_entries(text: &mut String, file: &DayFile) -> Result<(), AllocError>
    requires { Whole (shape_of file.now) }
    ensures { OnOk result (Appends text.old text.new (said_text (entries_of (shape_of file.now)))) }
{
    for (i, entry) in file.entries().enumerate() {
        print_entry(text, i + 1, &entry)?;
    }
    Ok(())
}

// Prints a file's first line.
fn print_head(text: &mut String, file: &DayFile) -> Result<(), AllocError>
    ensures { OnOk result (Appends text.old text.new (head_text (shape_of file.now))) }
{
    writeln!(
        text,
        "file {} {} records {} commits {}",
        file.offset,
        file.part.len(),
        file.records,
        file.count
    )
}

// Prints a file that was read.
fn print_file(text: &mut String, file: &DayFile) -> Result<(), AllocError>
    requires { Whole (shape_of file.now) }
    ensures { OnOk result (Appends text.old text.new (answer_text (gives (shape_of file.now)))) }
{
    print_head(text, file)?;
    print_entries(text, file)
}

// Prints why there is no file.
fn print_refusal(text: &mut String, refusal: FileRefusal) -> Result<(), AllocError>
    ensures { OnOk result (Appends text.old text.new (answer_text (refuses (code_of refusal)))) }
{
    writeln!(text, "no {}", refusal.code().number)
}

/// What is printed of the last day file in the bytes: where it stands, its records and commits, and a line for each entry;
/// or `no` and the number of the refusal. Fails where there is no memory.
pub fn show_file(heap: Global, bytes: &[u8]) -> Result<String, AllocError>
    ensures { IfOk result (λ t. string_bytes t ≡ shown_of bytes.now) }
{
    let mut text = String::new(heap);
    match DayFile::read(bytes) {
        Ok(file) => print_file(&mut text, &file)?,
        Err(refusal) => print_refusal(&mut text, refusal)?,
    }
    Ok(text)
}
