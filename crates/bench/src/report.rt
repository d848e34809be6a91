// A line for each plan: its counts, or the time of a transaction.
use crate::days::Day;
use crate::plan::{self, Plan};
use crate::tally::Tally;
use crate::{NewestLog, SnapshotLog};
use anyhow::anyhow;
use certifier::Log;
use dice::Dice;
use std::io;
use std::time::{Duration, Instant};
use store::Store;

// Rounds of which the fastest counts.
const ROUNDS: u32 = 40;

/// What a line shows of its plan.
#[derive(Clone, Copy)]
pub(crate) enum Shown {
    Counts,
    Times,
}

/// A fresh log of the plan.
pub(crate) fn open<S: Store<u32>>(rt: HostRuntime, plan: &Plan) -> anyhow::Result<Log<S, u32>> {
    Log::open(rt.alloc(), plan.records, plan.room, 0).map_err(|_| anyhow!("no log"))
}

/// The lines of all plans.
#[derive(Clone, Copy)]
pub(crate) struct Report {
    pub(crate) rt: HostRuntime,
    pub(crate) shown: Shown,
}

impl Report {
    /// Prints all lines.
    pub(crate) fn all(&self) -> anyhow::Result<()> {
        self.both(&plan::ALONE)?;
        self.both(&plan::WIDE)?;
        self.both(&plan::CROWDED)?;
        self.tell::<SnapshotLog>("snapshot", &plan::CHAINS)?;
        self.both(&plan::FULL_DAY)?;
        for plan in &plan::SCALES {
            self.tell::<SnapshotLog>("snapshot", plan)?;
        }
        Ok(())
    }

    // The lines of a plan on both kinds of store.
    fn both(&self, plan: &Plan) -> anyhow::Result<()> {
        self.tell::<NewestLog>("newest", plan)?;
        self.tell::<SnapshotLog>("snapshot", plan)
    }

    // The line of a plan.
    fn tell<S: Store<u32>>(&self, kind: &str, plan: &Plan) -> anyhow::Result<()> {
        let mut tally = Tally::new();
        match self.shown {
            Shown::Counts => {
                self.days::<S>(plan, 1, &mut tally)?;
                self.counts(kind, plan, &tally)?;
            }
            Shown::Times => {
                let least = self.least::<S>(plan, &mut tally)?;
                self.times(kind, plan, &tally, least)?;
            }
        }
        Ok(())
    }

    // Works through so many days, each on a log of its own.
    // Kept: plan and tally as parameters; as fields of a line's struct a transaction of `wide newest` took 93 ns and not 77.
    fn days<S: Store<u32>>(&self, plan: &Plan, days: u32, tally: &mut Tally) -> anyhow::Result<()> {
        let mut dice = Dice::new(1);
        for _day in 0..days {
            let mut day: Day<S> = Day {
                log: open(self.rt, plan)?,
                plan: *plan,
                dice,
                tally: *tally,
            };
            day.work();
            dice = day.dice;
            *tally = day.tally;
        }
        Ok(())
    }

    // The line of a plan's counts.
    fn counts(&self, kind: &str, plan: &Plan, tally: &Tally) -> io::Result<()> {
        let name = plan.name;
        let Tally { granted, sum, .. } = tally;
        print!(self.rt; "{name} {kind}: granted {granted}, sum {sum}")?;
        for (number, times) in tally.refused.iter().enumerate() {
            if *times > 0 {
                print!(self.rt; ", no {number} {times}")?;
            }
        }
        println!(self.rt; "")
    }

    // How long the fastest round took.
    fn least<S: Store<u32>>(&self, plan: &Plan, tally: &mut Tally) -> anyhow::Result<Duration> {
        let mut least = Duration::MAX;
        for _round in 0..ROUNDS {
            let start = Instant::now(&self.rt)?;
            self.days::<S>(plan, plan.days, tally)?;
            least = least.min(start.elapsed(&self.rt)?);
        }
        Ok(least)
    }

    // The nanoseconds of a transaction, to the tenth.
    fn times(&self, kind: &str, plan: &Plan, tally: &Tally, round: Duration) -> io::Result<()> {
        let name = plan.name;
        let sum = tally.sum;
        let tenths = round.as_nanos().saturating_mul(10) / u128::from(plan.units().max(1));
        let whole = tenths / 10;
        let part = tenths % 10;
        println!(self.rt; "{name} {kind} {whole}.{part} {sum}")
    }
}
