// A day of inspections: cards are made and booked on a log of card rows, and what happened is printed.
#![tactic(auto)]

use anyhow::anyhow;
use cards::{Card, CardRow, State};
use certifier::{Grant, Log, LogRefusal};
use std::{fmt, io};
use store::kind::Snapshot;
use store::{Code, Seen, Store};
use versions::Versions;

// The day on which the cards are booked.
const TODAY: u16 = 12;

// A row of today.
fn today(state: State, inspector: u16) -> CardRow {
    CardRow {
        state,
        day: TODAY,
        inspector,
    }
}

/// The inspectors' desk: a log of card rows, and where it prints what happens.
#[derive(Drop)]
struct Desk<S> {
    rt: HostRuntime,
    log: Log<S, CardRow>,
}

impl<S: Store<CardRow>> Desk<S> {
    // A desk with four cards that are due, and room for eight versions.
    fn open(rt: HostRuntime) -> anyhow::Result<Desk<S>> {
        let due = CardRow {
            state: State::Due,
            day: 0,
            inspector: 0,
        };
        let log = Log::open(rt.alloc(), 4, 8, due).map_err(|_| anyhow!("no log"))?;
        Ok(Desk { rt, log })
    }

    fn refuse(&self, what: impl fmt::Display + Drop, code: Code) -> io::Result<()> {
        let Code { number, layer } = code;
        println!(self.rt; "{what}: no {number}, from the {layer}")
    }

    fn refuse_call(&self, console: u32, call: &str, refusal: LogRefusal) -> io::Result<()> {
        self.refuse(format_args!("console {console} {call}"), refusal.code())
    }

    fn show(&self, row: CardRow) -> io::Result<()> {
        let CardRow {
            state,
            day,
            inspector,
        } = row;
        println!(self.rt; "{state}, day {day}, inspector {inspector}")
    }

    fn begin(&mut self, console: u32) -> io::Result<()> {
        match self.log.begin(console) {
            Ok(stamp) => println!(self.rt; "console {console} begin: at {stamp}"),
            Err(e) => self.refuse_call(console, "begin", e),
        }
    }

    fn read(&mut self, console: u32, at: u32) -> io::Result<()> {
        match self.log.read(console, at) {
            Ok(Seen::Own(row)) => {
                print!(self.rt; "console {console} read {at}: own, ")?;
                self.show(row)
            }
            Ok(Seen::Committed(version)) => {
                let number = version.number;
                print!(self.rt; "console {console} read {at}: version {number}, ")?;
                self.show(version.entry)
            }
            Err(e) => self.refuse_call(console, "read", e),
        }
    }

    // Makes the card, and only then asks the log to take its row.
    fn book(&mut self, console: u32, at: u32, row: CardRow) -> io::Result<()> {
        match Card::new(row) {
            Ok(card) => self.write(console, at, card.row()),
            Err(e) => self.refuse("card", e.code()),
        }
    }

    fn write(&mut self, console: u32, at: u32, row: CardRow) -> io::Result<()> {
        match self.log.write(console, at, row) {
            Ok(version) => println!(self.rt;
                "console {console} write {at}: over version {version}"
            ),
            Err(e) => self.refuse_call(console, "write", e),
        }
    }

    fn commit(&mut self, console: u32) -> io::Result<()> {
        match self.log.commit(console) {
            Ok(Grant { stamp, low, high }) => {
                println!(self.rt; "console {console} commit: {stamp}, low {low}, high {high}")
            }
            Err(e) => self.refuse_call(console, "commit", e),
        }
    }

    fn give_up(&mut self, console: u32) -> io::Result<()> {
        match self.log.drop(console) {
            Ok(()) => println!(self.rt; "console {console} drop: done"),
            Err(e) => self.refuse_call(console, "drop", e),
        }
    }

    // One inspection after another, with what the checks turn away.
    fn morning(&mut self) -> io::Result<()> {
        self.read(0, 0)?;
        self.begin(16)?;
        self.begin(0)?;
        self.begin(0)?;
        self.begin(1)?;
        self.read(0, 0)?;
        self.read(0, 4)?;
        self.book(0, 0, today(State::Due, 7))?;
        self.book(0, 0, today(State::Passed, 0))?;
        self.book(0, 0, today(State::Passed, 7))?;
        self.read(0, 0)?;
        self.book(1, 0, today(State::Failed, 8))?;
        self.commit(0)?;
        self.read(1, 0)?;
        self.book(1, 0, today(State::Failed, 8))?;
        self.give_up(1)
    }

    // Two consoles each read both of two cards and write the one that the other only read.
    fn noon(&mut self) -> io::Result<()> {
        self.begin(2)?;
        self.begin(3)?;
        self.read(2, 2)?;
        self.read(2, 3)?;
        self.read(3, 2)?;
        self.read(3, 3)?;
        self.book(2, 2, today(State::Passed, 7))?;
        self.book(3, 3, today(State::Passed, 8))?;
        self.commit(2)?;
        self.commit(3)?;
        self.commit(3)
    }

    // The table fills.
    fn evening(&mut self) -> io::Result<()> {
        self.begin(4)?;
        self.book(4, 1, today(State::Failed, 9))?;
        self.book(4, 3, today(State::Failed, 9))?;
        self.book(4, 0, today(State::Failed, 9))?;
        self.commit(4)
    }

    // The commits by rank.
    fn order(&self) -> io::Result<()> {
        let mut list = [0u32; 4];
        match self.log.order(&mut list) {
            Ok(count) => self.stamps(count, &list),
            Err(e) => self.refuse("order", e.code()),
        }
    }

    // The first `count` stamps of a list.
    fn stamps(&self, count: u16, list: &[u32]) -> io::Result<()> {
        print!(self.rt; "order of {count}:")?;
        for stamp in list.iter().take(usize::from(count)) {
            print!(self.rt; " {stamp}")?;
        }
        println!(self.rt; "")
    }
}

fn main(rt: HostRuntime) -> anyhow::Result<()> {
    let mut desk: Desk<Versions<CardRow, Snapshot>> = Desk::open(rt)?;
    desk.morning()?;
    desk.noon()?;
    desk.evening()?;
    desk.order()?;
    Ok(())
}
