// Every refusal of a store and of a log at its edge: lists of calls, and a line for each with what it was answered.
#![tactic(auto)]

use certifier::Log;
use store::kind::{Newest, Snapshot};
use versions::Versions;

mod ask;
mod logs;
mod say;
mod scenes;
mod sequences;
mod stores;

/// The store that is asked.
type Rides = Versions<u32, Newest>;

/// The log that is asked.
type Day = Log<Rides, u32>;

fn main(rt: HostRuntime) -> anyhow::Result<()> {
    scenes::show::<Rides>(rt)?;
    stores::show::<Rides>(rt)?;
    scenes::show::<Day>(rt)?;
    logs::show::<Rides>(rt)?;
    scenes::stale::<Versions<u32, Snapshot>>(rt)?;
    scenes::stale::<Log<Versions<u32, Snapshot>, u32>>(rt)?;
    sequences::show::<Rides>(rt)
}
