// The days themselves: which calls are made, and in which sequence.
use crate::plan::{Plan, Shape};
use crate::tally::Tally;
use certifier::{Grant, Log};
use dice::Dice;
use store::{Seen, Store};

// A call of a transaction of a wide day.
#[derive(Clone, Copy)]
enum Step {
    Begin,
    Read,
    Write,
    Commit,
}

// The calls of such a transaction. The console after another is a call further.
const STEPS: [Step; 7] = [
    Step::Begin,
    Step::Read,
    Step::Read,
    Step::Read,
    Step::Read,
    Step::Write,
    Step::Commit,
];

/// A day under way: a fresh log, and what works on it.
#[derive(Drop)]
pub(crate) struct Day<S> {
    pub(crate) log: Log<S, u32>,
    pub(crate) plan: Plan,
    pub(crate) dice: Dice,
    pub(crate) tally: Tally,
}

impl<S: Store<u32>> Day<S> {
    /// Works through the day.
    pub(crate) fn work(&mut self) {
        match self.plan.shape {
            Shape::Alone => self.alone(),
            Shape::Wide => self.wide(),
            Shape::Chains => self.chains(),
        }
    }

    // Each makes one call and gives a number that stands for its answer.
    // Kept: the log's own calls; by `Log::call` a transaction of `alone newest` took 83 ns and not 62, of `reads-16` 290 and not 174.
    fn begin(&mut self, console: u32) -> u32 {
        let stamp = self.log.begin(console).map(u32::from);
        self.tally.number(stamp)
    }

    fn read(&mut self, console: u32, at: u32) -> u32 {
        let seen = self.log.read(console, at).map(|seen| match seen {
            Seen::Own(entry) => entry,
            Seen::Committed(version) => version.number.wrapping_mul(3).wrapping_add(version.entry),
        });
        self.tally.number(seen)
    }

    fn write(&mut self, console: u32, at: u32, entry: u32) -> u32 {
        let version = self.log.write(console, at, entry);
        self.tally.number(version)
    }

    fn commit(&mut self, console: u32) -> u32 {
        let marks = self.log.commit(console).map(|Grant { low, high, .. }| {
            self.tally.granted = self.tally.granted.wrapping_add(1);
            u32::from(low).wrapping_mul(3).wrapping_add(u32::from(high))
        });
        self.tally.number(marks)
    }

    // One transaction of console 0.
    fn transaction(&mut self, turn: u32) {
        let plan = self.plan;
        let mut sum = self.begin(0);
        for _read in 0..plan.reads {
            let at = plan.record(self.dice.roll());
            sum = sum.wrapping_add(self.read(0, at));
        }
        if plan.writes(turn) {
            let at = plan.record(self.dice.roll());
            sum = sum.wrapping_add(self.write(0, at, turn));
        }
        sum = sum.wrapping_add(self.commit(0));
        self.tally.mix(sum);
    }

    fn alone(&mut self) {
        for turn in 0..self.plan.turns {
            self.transaction(turn);
        }
    }

    // Each console makes one call.
    fn phase(&mut self, shift: usize, entry: u32) {
        let plan = self.plan;
        let mut sum = 0u32;
        for (console, step) in (0..16u32).zip(STEPS.iter().cycle().skip(shift)) {
            let at = plan.record(self.dice.roll());
            let number = match step {
                Step::Begin => self.begin(console),
                Step::Read => self.read(console, at),
                Step::Write => self.write(console, at, entry),
                Step::Commit => self.commit(console),
            };
            sum = sum.wrapping_add(number);
        }
        self.tally.mix(sum);
    }

    fn wide(&mut self) {
        for turn in 0..self.plan.turns {
            for shift in 0..STEPS.len() {
                self.phase(shift, turn);
            }
        }
    }

    // Console 0 writes one record after the other while console 1 is open.
    fn grow(&mut self) {
        for turn in 0..self.plan.turns {
            let at = self.plan.record(turn);
            let begun = self.begin(0);
            let wrote = self.write(0, at, turn);
            let committed = self.commit(0);
            self.tally
                .mix(begun.wrapping_add(wrote).wrapping_add(committed));
        }
    }

    // Console 1 reads every record.
    fn look(&mut self) {
        let sum = (0..self.plan.records)
            .map(|at| self.read(1, at))
            .fold(0, u32::wrapping_add);
        self.tally.mix(sum);
    }

    fn chains(&mut self) {
        let begun = self.begin(1);
        self.tally.mix(begun);
        self.grow();
        for _round in 0..self.plan.reads {
            self.look();
        }
        let committed = self.commit(1);
        self.tally.mix(committed);
    }
}
