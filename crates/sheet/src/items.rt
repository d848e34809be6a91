// The lines of a sheet.
ghost use Rattle.std.specs.Prelude.{◌≡◌, ℕ, map, IfOk, MatchOption, []};
ghost use Rattle.sheet.specs.Cuts.{pieces, lines_of};
ghost use Rattle.sheet.specs.Faults.{told};
ghost use Rattle.sheet.specs.Requests.{request_of};

use crate::fault::Fault;
use crate::request::{Request, request_in};
use std::alloc::{AllocError, Global};

/// What a line comes to: a request, or its fault.
pub(crate) type Item = Result<Request, Fault>;

// The text that is cut into lines: a sheet without the byte that ends its last line. Without a byte there is no line.
fn text_of(sheet: &[u8]) -> Option<&[u8]>
    ensures { MatchOption result (lines_of sheet.now ≡ []) (λ t. lines_of sheet.now ≡ pieces 10 t.now) }
{
    match sheet {
        [] => None,
        [text @ .., b'\n'] => Some(text),
        _ => Some(sheet),
    }
}

/// What every line of a sheet comes to.
pub(crate) fn read_lines(heap: Global, sheet: &[u8]) -> Result<Vec<Item>, AllocError>
    ensures { IfOk result (λ v. map told v.items ≡ map request_of (lines_of sheet.now)) }
{
    let Some(text) = text_of(sheet) else {
        return Ok(Vec::new(heap));
    };
    let lines = text.split(|b| *b == b'\n');
    lines.map(request_in).collect(heap)
}
