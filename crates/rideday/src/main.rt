// A day at a ride: sixteen consoles dispatch trains, transfer cycles and audit the counts, call by call among one another,
// and the planner's plain counters are laid beside the counts in the log.
#![tactic(auto)]

use store::Store;
use store::kind::{Newest, Snapshot};
use versions::Versions;

mod day;
mod job;
mod report;

use day::Day;

/// The calls of a day, enough for all its jobs.
const CALLS: u32 = 24000;

fn ride_day<S: Store<u32>>(rt: HostRuntime, kind: &str) -> anyhow::Result<()> {
    let mut day: Day<S> = Day::open(rt.alloc())?;
    for _call in 0..CALLS {
        day.turn();
    }
    println!(rt; "# a day on {kind}")?;
    day.check(rt)?;
    day.refusals(rt)?;
    day.commits(rt)?;
    day.order(rt)
}

fn main(rt: HostRuntime) -> anyhow::Result<()> {
    ride_day::<Versions<u32, Newest>>(rt, "newest")?;
    ride_day::<Versions<u32, Snapshot>>(rt, "snapshot")
}
