// The lines of a sheet played on logs, a stretch at a time.
ghost use Rattle.std.specs.Prelude.{◌≡◌, ℕ, map, IfOk, Some, None, Ok, OnOk, ◌∷◌};
ghost use Rattle.std.specs.Slice.Iter.{iter_rest};
ghost use Rattle.certifier.specs.Logs.{log_state};
ghost use Rattle.runs.specs.Outcomes.{replies_of};
ghost use Rattle.sheet.specs.Answers.{replied, rules_of};
ghost use Rattle.sheet.specs.Endings.{Gains, Plays, PlaysAll};
ghost use Rattle.sheet.specs.Printing.{stamps_by_rank};
ghost use Rattle.sheet.specs.Faults.{told};
ghost use Rattle.sheet.specs.Stretches.{call_in, calls_in, takes, beside};

use crate::fault::Fault;
use crate::items::Item;
use crate::opening::{Stretch, split_at_open, stretch_of};
use crate::request::{LogKind, Request};
use crate::response::{Response, Success, response_to};
use certifier::{Answer, Call, Log};
use filing::{Day, DayRun, run_day};
use std::alloc::{AllocError, Global};
use std::slice::Iter;
use store::kind::{Newest, Snapshot};
use store::{DAY, OpenFault, Store};
use versions::Versions;

/// What is left of a log at the end of its stretch: its commit stamps by rank, and its day.
#[derive(Drop)]
pub(crate) struct Ending {
    pub(crate) stamps: Vec<u32>,
    pub(crate) day: Day,
}

/// What a sheet comes to: what each line is answered, and what is left of the log that is open at its end.
#[derive(Drop)]
pub(crate) struct Played {
    pub(crate) responses: Vec<Response>,
    pub(crate) ending: Option<Ending>,
}

// The call of a line, if it makes one.
fn call_in(item: &Item) -> Option<Call<u32>>
    ensures { result ≡ call_in (told item.now) }
{
    match item {
        Ok(Request::Call(call)) => Some(*call),
        Ok(Request::Open(_, _, _)) | Err(_) => None,
    }
}

// The calls that the lines make.
fn calls_in(heap: Global, items: &[Item]) -> Result<Vec<Call<u32>>, AllocError>
    ensures { IfOk result (λ v. v.items ≡ calls_in (map told items.now)) }
{
    items.iter().filter_map(call_in).collect(heap)
}

// What a line is answered that opens no log: a call takes the next of the answers, and one that finds none had no log.
fn respond(item: &Item, answers: &mut Iter<'_, Answer<u32>>) -> Response
    ensures { (told result, map replied (replies_of (iter_rest answers.new))) ≡ takes (told item.now) (map replied (replies_of (iter_rest answers.old))) }
{
    match (*item)? {
        Request::Call(_) => response_to(*answers.next().ok_or(Fault::NoLog)?),
        Request::Open(_, _, _) => Err(Fault::Table),
    }
}

// Adds what lines are answered of which none opens a log.
fn add_responses(
    items: &[Item],
    answers: &[Answer<u32>],
    responses: &mut Vec<Response>,
) -> Result<(), AllocError>
    ensures { OnOk result (Gains responses.old responses.new (beside (map told items.now) (map replied (replies_of answers.now)))) }
{
    let mut left = answers.iter();
    for item in items {
        responses.push(respond(item, &mut left))?;
    }
    Ok(())
}

// The commit stamps of a log, by rank.
fn stamps_of<S: Store<u32>>(heap: Global, log: &Log<S, u32>) -> Result<Vec<u32>, AllocError>
    ensures { IfOk result (λ v. v.items ≡ stamps_by_rank (log_state S.Store.state log.now)) }
{
    // Kept: an array for the order, so that the heap holds no more stamps than there are, and none where there are none.
    let mut list = [0; DAY as usize];
    match log.order(&mut list) {
        Ok(count) => Vec::from_slice(heap, &list[0..usize::from(count)]),
        Err(_) => unreachable(),
    }
}

// Opens the log of a stretch above a store, plays its lines on it, and adds what the open and they are answered. An
// accepted open is refused only for want of memory.
fn play_stretch<S: Store<u32>>(
    heap: Global,
    stretch: &Stretch,
    responses: &mut Vec<Response>,
) -> Result<Ending, AllocError>
    ensures { Plays S.Store.rules stretch.now responses.old responses.new result }
{
    let calls = calls_in(heap, stretch.lines)?;
    let records = u32::from(stretch.size.records);
    let places = u32::from(stretch.size.places);
    match run_day::<S, u32>(heap, records, places, 0, calls.as_slice()) {
        Ok(DayRun { log, answers, day }) => {
            responses.push(Ok(Success::Done))?;
            add_responses(stretch.lines, answers.as_slice(), responses)?;
            let stamps = stamps_of(heap, &log)?;
            Ok(Ending { stamps, day })
        }
        Err(OpenFault::Memory) => Err(AllocError),
        Err(OpenFault::Table) => unreachable(),
    }
}

// Plays a stretch on a log above a store of the kind that its open asked for.
fn play_kind(
    heap: Global,
    stretch: &Stretch,
    responses: &mut Vec<Response>,
) -> Result<Ending, AllocError>
    ensures { Plays (rules_of stretch.now.kind) stretch.now responses.old responses.new result }
{
    match stretch.kind {
        LogKind::Newest => play_stretch::<Versions<u32, Newest>>(heap, stretch, responses),
        LogKind::Snapshot => play_stretch::<Versions<u32, Snapshot>>(heap, stretch, responses),
    }
}

/// Answers the lines in turn, from no log on. Each stretch from one accepted open to the next is one run of a log, so what
/// holds of runs holds of sheets.
pub(crate) fn play(heap: Global, items: &[Item]) -> Result<Played, AllocError>
    ensures { IfOk result (PlaysAll (map told items.now)) }
{
    let (before, mut rest) = split_at_open(items);
    let mut responses = Vec::new(heap);
    add_responses(before, &[], &mut responses)?;
    let mut ending = None;
    // Kept: with `successors`, which was tried, that the stretches end stays open.
    while let Some(stretch) = stretch_of(rest) {
        ending = Some(play_kind(heap, &stretch, &mut responses)?);
        rest = stretch.behind;
    }
    Ok(Played { responses, ending })
}
