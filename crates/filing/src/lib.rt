//! Day files of logs: a run with what a day file keeps of it, and the file itself.
#![tactic(auto)]

ghost use Rattle.filing.specs.Days.{RunsDay};

use certifier::Call;
use runs::{Outcome, run};
use std::alloc::Global;
use store::{OpenFault, Store};

mod day;
mod numbers;
mod show;
mod write;

pub use crate::day::{Day, DayRun};
pub use crate::numbers::print_numbers;
pub use crate::show::show_file;
pub use crate::write::write_day;

/// Opens a log, makes the calls on it in their sequence, and gives the log with the answers and the day. Refused as an
/// opening is.
pub fn run_day<S: Store<E>, E: Copy>(
    heap: Global,
    size: u32,
    room: u32,
    first: E,
    calls: &[Call<E>],
) -> Result<DayRun<S, E>, OpenFault>
    ensures { RunsDay S.Store.rules S.Store.state size room first calls.now result }
{
    let Outcome {
        log,
        answers,
        entries,
    } = run::<S, E>(heap, size, room, first, calls)?;
    let day = Day {
        records: size,
        entries,
    };
    Ok(DayRun { log, answers, day })
}
