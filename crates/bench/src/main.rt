// Days of work on a log, and what they counted. With the word `times` also how long a transaction took, with `open` no
// more than one log opened.
#![tactic(auto)]

use anyhow::bail;
use std::env;
use std::str::FromStr;
use store::kind::{Newest, Snapshot};
use versions::Versions;

mod days;
mod plan;
mod report;
mod tally;

use report::{Report, Shown, open};

type NewestLog = Versions<u32, Newest>;

type SnapshotLog = Versions<u32, Snapshot>;

/// What the program is asked for.
// Kept: no Option of `Shown`, since its None would stand for opening a log.
#[derive(Clone, Copy)]
enum Wanted {
    Lines(Shown),
    Opening,
}

impl FromStr for Wanted {
    type Err = anyhow::Error;

    fn from_str(word: &str) -> anyhow::Result<Wanted> {
        match word {
            "times" => Ok(Wanted::Lines(Shown::Times)),
            "open" => Ok(Wanted::Opening),
            _ => bail!("no such word"),
        }
    }
}

// What the last word that is known asks for.
fn asked(rt: HostRuntime) -> anyhow::Result<Wanted> {
    let known = env::args(&rt)?.filter_map(|word| word.as_str().parse::<Wanted>().ok());
    Ok(known.last().unwrap_or(Wanted::Lines(Shown::Counts)))
}

fn main(rt: HostRuntime) -> anyhow::Result<()> {
    match asked(rt)? {
        Wanted::Lines(shown) => Report { rt, shown }.all(),
        Wanted::Opening => {
            let _log = open::<SnapshotLog>(rt, &plan::ALONE)?;
            Ok(())
        }
    }
}
