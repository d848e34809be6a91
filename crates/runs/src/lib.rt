// Whole runs: a log is opened, and a list of calls is played on it.
#![tactic(auto)]

ghost use Rattle.std.specs.Prelude.{◌≡◌, ◌++◌, map, IfOk, OnOk};
ghost use Rattle.std.specs.Option.{option_to_list};
ghost use Rattle.certifier.specs.Entries.{track_of, entry_by};
ghost use Rattle.certifier.specs.Logs.{log_state, reply_of};
ghost use Rattle.runs.specs.Outcomes.{entry_for, track_for, replies_of, Plays, Runs};

use certifier::{Call, DayEntry, Log, Track};
pub use certifier::{Accepted, Answer};
use std::alloc::{AllocError, Global};
use store::{OpenFault, Store};

/// A log, what it answered to the calls that were played on it since its opening, and what a day file keeps of its
/// commits, in their order.
#[derive(Drop)]
pub struct Outcome<S, E> {
    pub log: Log<S, E>,
    pub answers: Vec<Answer<E>>,
    pub entries: Vec<DayEntry>,
}

// What is kept of a call with this answer, which found its transaction at this track.
fn entry_for<E: Copy>(call: &Call<E>, answer: &Answer<E>, track: Track) -> Option<DayEntry>
    ensures { map entry_by (option_to_list result) ≡ entry_for call.now (reply_of answer.now) (track_of track) }
{
    match (call, answer) {
        (Call::Commit(console), Ok(Accepted::Granted(grant))) => Some(DayEntry {
            console: *console,
            low: grant.low,
            track,
        }),
        _ => None,
    }
}

// Adds what is kept of a call.
// Kept: a push and no `extend`, which moves the whole track twice for every call that is no commit.
fn keep<E: Copy>(
    entries: &mut Vec<DayEntry>,
    call: &Call<E>,
    answer: &Answer<E>,
    track: Track,
) -> Result<(), AllocError>
    ensures { OnOk result (map entry_by entries.new.items ≡ map entry_by entries.old.items ++ entry_for call.now (reply_of answer.now) (track_of track)) }
{
    if let Some(entry) = entry_for(call, answer, track) {
        entries.push(entry)?;
    }
    Ok(())
}

// The track of the transaction that a call asks to commit. A console above 15 is given some track: the log refuses it.
// Kept: a track and no Option, since its definition says which track a call finds, for any call and any console.
fn track_for<S: Store<E>, E: Copy>(log: &Log<S, E>, call: &Call<E>) -> Track
    ensures { track_of result ≡ track_for (log_state S.Store.state log.now) call.now }
{
    match call {
        Call::Commit(console) => log.track(*console % 16).unwrap(),
        _ => Track::new(),
    }
}

// Makes the calls on the log in their sequence, and gives the log with the answers.
fn play<S: Store<E>, E: Copy>(
    mut log: Log<S, E>,
    heap: Global,
    calls: &[Call<E>],
) -> Result<Outcome<S, E>, AllocError>
    ensures { IfOk result (λ run. Plays S.Store.rules (log_state S.Store.state log) calls.now (log_state S.Store.state run.log) (replies_of run.answers.items) (map entry_by run.entries.items)) }
{
    let mut answers = Vec::with_capacity(heap, calls.len())?;
    let mut entries = Vec::new(heap);
    for call in calls {
        let track = track_for(&log, call);
        let answer = log.call(*call);
        keep(&mut entries, call, &answer, track)?;
        answers.push(answer)?;
    }
    Ok(Outcome {
        log,
        answers,
        entries,
    })
}

/// Opens a log, makes the calls on it in their sequence, and gives the log with the answers. Refused as an opening is.
pub fn run<S: Store<E>, E: Copy>(
    heap: Global,
    size: u32,
    room: u32,
    first: E,
    calls: &[Call<E>],
) -> Result<Outcome<S, E>, OpenFault>
    ensures { Runs S.Store.rules S.Store.state size room first calls.now result }
{
    let log = Log::open(heap, size, room, first)?;
    Ok(play(log, heap, calls)?)
}
