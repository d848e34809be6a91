// The text that a sheet prints.
ghost use Rattle.std.specs.Prelude.{ℕ, ◌++◌, map, codes, OnOk};
ghost use Rattle.filing.specs.Appending.{Appends};
ghost use Rattle.sheet.specs.Faults.{told};
ghost use Rattle.sheet.specs.Printing.{line_text, lines_text, stamps_text};

use crate::response::Response;
use filing::print_numbers;
use std::alloc::AllocError;

// Prints the answer to one line.
fn print_line(text: &mut String, line: usize, response: &Response) -> Result<(), AllocError>
    ensures { OnOk result (Appends text.old text.new (line_text line (told response.now))) }
{
    match response {
        Ok(success) => writeln!(text, "{line} {success}"),
        Err(fault) => writeln!(text, "{line} {fault}"),
    }
}

/// Prints what each line is answered, with the lines numbered from 1 on.
pub(crate) fn print_lines(text: &mut String, responses: &[Response]) -> Result<(), AllocError>
    ensures { OnOk result (Appends text.old text.new (lines_text 1 (map told responses.now))) }
{
    for (i, response) in responses.iter().enumerate() {
        print_line(text, i + 1, response)?;
    }
    Ok(())
}

/// Prints the last line: the commit stamps of the log that is open at the end, by rank.
pub(crate) fn print_order(text: &mut String, stamps: &[u32]) -> Result<(), AllocError>
    ensures { OnOk result (Appends text.old text.new (codes "order" ++ stamps_text stamps.now)) }
{
    text.push_str("order")?;
    print_numbers(text, stamps)?;
    text.push_str("\n")
}
