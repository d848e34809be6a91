// What is printed at the end of a day.
use crate::day::{Day, JOBS, Refused, count_of};
use crate::job::TRAINS;
use anyhow::{bail, ensure};
use certifier::LogRefusal;
use std::{fmt, io};
use store::{DAY, Refusal, Store};

// The name of a refusal.
#[derive(Clone, Copy)]
struct Name(LogRefusal);

impl fmt::Display for Name {
    fn fmt<W: fmt::Write>(&self, f: &mut fmt::Formatter<W>) -> fmt::Result {
        f.write_str(match self.0 {
            LogRefusal::NoConsole | LogRefusal::Store(Refusal::NoConsole) => "NO CONSOLE",
            LogRefusal::NoRecord | LogRefusal::Store(Refusal::NoRecord) => "NO RECORD",
            LogRefusal::Shut | LogRefusal::Store(Refusal::Shut) => "SHUT",
            LogRefusal::Open | LogRefusal::Store(Refusal::Open) => "OPEN",
            LogRefusal::Reads => "READS",
            LogRefusal::Writes => "WRITES",
            LogRefusal::Store(Refusal::Held) => "HELD",
            LogRefusal::Store(Refusal::Stale) => "STALE",
            LogRefusal::Store(Refusal::NoRoom) => "NO ROOM",
            LogRefusal::DayFull | LogRefusal::Store(Refusal::DayFull) => "DAY FULL",
            LogRefusal::Unsafe => "UNSAFE",
            LogRefusal::NoVersion => "NO VERSION",
            LogRefusal::ShortList => "SHORT LIST",
        })
    }
}

// Prints commit stamps on one line.
// Kept: three lines, in a program that has no crate in common with the others that print numbers.
fn stamps(rt: HostRuntime, what: &str, stamps: &[u32]) -> io::Result<()> {
    print!(rt; "{what} by rank:")?;
    for stamp in stamps {
        print!(rt; " {stamp}")?;
    }
    println!(rt; "")
}

impl<S: Store<u32>> Day<S> {
    /// The planner's own check: for each train the plain counter, the count in the log, and whether they agree. The
    /// transaction that reads them is dropped, and leaves nothing.
    pub(crate) fn check(&mut self, rt: HostRuntime) -> anyhow::Result<()> {
        ensure!(self.log.begin(0).is_ok(), "console 0 is still open");
        for (train, plain) in (0..TRAINS).zip(self.cycles.iter()) {
            let Ok(seen) = self.log.read(0, train) else {
                bail!("a count is not read");
            };
            let logged = count_of(seen);
            let verdict = if logged == *plain { "agree" } else { "DIFFER" };
            println!(rt; "train {train}: {plain} cycles counted, {logged} in the log, {verdict}")?;
        }
        let _ = self.log.drop(0);
        Ok(())
    }

    /// The refusals that came, by number and name.
    pub(crate) fn refusals(&self, rt: HostRuntime) -> io::Result<()> {
        for (number, refused) in self.refused.iter().enumerate() {
            if let Some(Refused { refusal, times }) = refused {
                let name = Name(*refusal);
                println!(rt; "refused {number} {name}: {times} times")?;
            }
        }
        Ok(())
    }

    /// The commits by the log's clock beside the jobs.
    pub(crate) fn commits(&self, rt: HostRuntime) -> io::Result<()> {
        let clock = self.log.clock();
        let granted = self.granted;
        println!(rt; "{JOBS} jobs, {granted} of them granted, {clock} commits in the log")
    }

    /// The first and the last commits of the order.
    pub(crate) fn order(&self, rt: HostRuntime) -> anyhow::Result<()> {
        let mut list = [0u32; DAY as usize];
        let Ok(count) = self.log.order(&mut list) else {
            bail!("the list is short");
        };
        let end = usize::from(count).min(list.len());
        let few = end.min(12);
        stamps(rt, "first", &list[0..few])?;
        stamps(rt, "last", &list[end - few..end])?;
        Ok(())
    }
}
