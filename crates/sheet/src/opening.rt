// Which lines open a log, and the stretches that they begin.
ghost use Rattle.std.specs.Prelude.{◌≡◌, ℕ, map, None, MatchOption};
ghost use Rattle.std.specs.List.{position_or_len};
ghost use Rattle.std.specs.Option.{option_map};
ghost use Rattle.sheet.specs.Faults.{told};
ghost use Rattle.sheet.specs.Stretches.{sizes_of, opening, opens, until_open, from_open, NoneOpens, Begins};

use crate::items::Item;
use crate::request::{LogKind, Request};
use store::TableSize;

/// The lines from an accepted open on: how large its log is and the kind of its store, the lines up to the next accepted
/// open, and those from it on.
#[derive(Clone, Copy)]
pub(crate) struct Stretch<'a> {
    pub(crate) size: TableSize,
    pub(crate) kind: LogKind,
    pub(crate) lines: &'a [Item],
    pub(crate) behind: &'a [Item],
    ghost one_log: { NoneOpens (map told lines.now) },
}

// The size and the kind of an open that is accepted.
fn size_in(item: &Item) -> Option<(TableSize, LogKind)>
    ensures { option_map (λ p. (p.0.records, p.0.places, p.1)) result ≡ sizes_of (told item.now) }
{
    match item {
        Ok(Request::Open(records, places, kind)) => {
            Some((TableSize::new(*records, *places).ok()?, *kind))
        }
        Ok(Request::Call(_)) | Err(_) => None,
    }
}

/// The stretch that the first line begins, if it is an accepted open.
pub(crate) fn stretch_of(items: &[Item]) -> Option<Stretch<'_>>
    ensures { MatchOption result (opening (map told items.now) ≡ None) (λ s. Begins (map told items.now) s.size.records s.size.places s.kind (map told s.lines.now) (map told s.behind.now)) }
{
    let (first, more) = items.split_first()?;
    let (size, kind) = size_in(first)?;
    let (lines, behind) = split_at_open(more);
    Some(Stretch {
        size,
        kind,
        lines,
        behind,
    })
}

// How many lines stand before the first accepted open.
fn until_open(items: &[Item]) -> usize
    ensures { result ≡ position_or_len opens (map told items.now) }
{
    items
        .iter()
        .position(|item| size_in(item).is_some())
        .unwrap_or(items.len())
}

/// The lines before the first accepted open, and those from it on.
pub(crate) fn split_at_open(items: &[Item]) -> (&[Item], &[Item])
    ensures front { map told result.0.now ≡ until_open (map told items.now) }
    ensures back { map told result.1.now ≡ from_open (map told items.now) }
{
    items.split_at(until_open(items))
}
