// The consoles at work, and what the planner counts beside the log.
use crate::job::{Job, TRAINS, Task};
use anyhow::anyhow;
use certifier::{Accepted, Log, LogRefusal};
use dice::Dice;
use std::alloc::Global;
use store::{PLACES, Seen, Store};

/// The jobs of a day.
pub(crate) const JOBS: u32 = 1200;

/// How often a refusal came.
#[derive(Clone, Copy)]
pub(crate) struct Refused {
    pub(crate) refusal: LogRefusal,
    pub(crate) times: u32,
}

/// A day under way.
#[derive(Drop)]
pub(crate) struct Day<S> {
    pub(crate) log: Log<S, u32>,
    dice: Dice,
    /// what each console is at
    tasks: [Option<Task>; 16],
    /// the jobs that no console has yet
    waiting: u32,
    /// the planner's plain counters, by train
    pub(crate) cycles: [u32; TRAINS as usize],
    pub(crate) granted: u32,
    /// the refusals by their number
    // Kept: an array and no map, which would take memory in mid-day, where the day could end for want of it.
    pub(crate) refused: [Option<Refused>; 16],
}

/// The count that a read shows.
pub(crate) fn count_of(seen: Seen<u32>) -> u32 {
    match seen {
        Seen::Own(count) => count,
        Seen::Committed(version) => version.entry,
    }
}

impl<S: Store<u32>> Day<S> {
    /// A day on a fresh log, before its first call.
    pub(crate) fn open(heap: Global) -> anyhow::Result<Day<S>> {
        Ok(Day {
            log: Log::open(heap, TRAINS, PLACES, 0).map_err(|_| anyhow!("no log"))?,
            dice: Dice::new(7),
            tasks: [None; 16],
            waiting: JOBS,
            cycles: [0; TRAINS as usize],
            granted: 0,
            refused: [None; 16],
        })
    }

    /// A console makes the next call of its job, or takes a job where it has none.
    pub(crate) fn turn(&mut self) {
        let console = self.dice.below(16);
        let place = console as usize;
        self.tasks[place] = match self.tasks[place] {
            Some(task) => self.work(console, task),
            None => self.take(),
        };
    }

    // The next job, while there is one.
    fn take(&mut self) -> Option<Task> {
        self.waiting = self.waiting.checked_sub(1)?;
        Some(Task::new(Job::draw(&mut self.dice)))
    }

    // Makes the task's call. A refused task begins again.
    fn work(&mut self, console: u32, task: Task) -> Option<Task> {
        match self.log.call(task.call(console)) {
            Ok(accepted) => self.go_on(task, accepted),
            Err(refusal) => {
                self.refuse(refusal);
                // The log has dropped an unsafe transaction already, and then says that nothing is open.
                let _ = self.log.drop(console);
                Some(Task::new(task.job))
            }
        }
    }

    // What becomes of the task by what its call was answered. The day file's entry of a commit belongs here: before it
    // `log.noted(console)` and `log.overwritten(console, ..)` tell the versions that it keeps, and the grant tells the
    // low mark.
    fn go_on(&mut self, task: Task, accepted: Accepted<u32>) -> Option<Task> {
        match accepted {
            Accepted::Own(count) => Some(task.read(count)),
            Accepted::Saw(version) => Some(task.read(version.entry)),
            Accepted::Granted(_) => {
                self.book(&task);
                None
            }
            Accepted::Begun(_) | Accepted::Overwrites(_) | Accepted::Dropped => Some(
                task.stepped(),
            ),
        }
    }

    fn refuse(&mut self, refusal: LogRefusal) {
        let number = refusal.code().number as usize;
        if number < 16 {
            let before = self.refused[number].map_or(0, |refused| refused.times);
            let times = before.wrapping_add(1);
            self.refused[number] = Some(Refused { refusal, times });
        }
    }

    fn add(&mut self, train: u32, cycles: u32) {
        let place = (train % TRAINS) as usize;
        self.cycles[place] = self.cycles[place].wrapping_add(cycles);
    }

    // The planner counts what a granted job changed.
    fn book(&mut self, task: &Task) {
        self.granted = self.granted.wrapping_add(1);
        match task.job {
            Job::Dispatch(train) => self.add(train, 1),
            Job::Transfer(from, to) => {
                self.add(from, task.moved().wrapping_neg());
                self.add(to, task.moved());
            }
            Job::Audit => {}
        }
    }
}
