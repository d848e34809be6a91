// What consoles have to do.
use certifier::Call;
use dice::Dice;

/// The trains of the ride. Record t of the log is the cycle count of train t.
pub(crate) const TRAINS: u32 = 8;

/// One transaction's work.
#[derive(Clone, Copy)]
pub(crate) enum Job {
    /// A train goes: its count is read, and one more is written.
    Dispatch(u32),
    /// A cycle was booked on the wrong train, and goes from one count to another.
    Transfer(u32, u32),
    /// All counts are read.
    Audit,
}

// A step of a job.
#[derive(Clone, Copy)]
enum Step {
    Begin,
    /// of a train's count
    Read(u32),
    /// of a train's count
    Write(u32),
    Commit,
}

impl Job {
    /// The next job of the day: of eight mostly five dispatches, two transfers and an audit.
    pub(crate) fn draw(dice: &mut Dice) -> Job {
        let train = dice.below(TRAINS);
        match dice.below(8) {
            0..=4 => Job::Dispatch(train),
            5 | 6 => {
                let other = train.wrapping_add(1).wrapping_add(dice.below(TRAINS - 1));
                Job::Transfer(train, other % TRAINS)
            }
            _ => Job::Audit,
        }
    }

    // The step that follows another.
    fn after(self, step: Step) -> Step {
        match (self, step) {
            (Job::Dispatch(train), Step::Begin) => Step::Read(train),
            (Job::Dispatch(train), Step::Read(_)) => Step::Write(train),
            (Job::Transfer(from, _), Step::Begin) => Step::Read(from),
            (Job::Transfer(from, to), Step::Read(train)) if train == from => Step::Read(to),
            (Job::Transfer(from, _), Step::Read(_)) => Step::Write(from),
            (Job::Transfer(from, to), Step::Write(train)) if train == from => Step::Write(to),
            (Job::Audit, Step::Begin) => Step::Read(0),
            (Job::Audit, Step::Read(train)) if train < TRAINS - 1 => Step::Read(train + 1),
            _ => Step::Commit,
        }
    }
}

/// A job under way at a console: its next step, and the two counts that it read last.
#[derive(Clone, Copy)]
pub(crate) struct Task {
    pub(crate) job: Job,
    step: Step,
    before: u32,
    last: u32,
}

impl Task {
    pub(crate) fn new(job: Job) -> Task {
        Task {
            job,
            step: Step::Begin,
            before: 0,
            last: 0,
        }
    }

    /// What a transfer moves: a cycle, where there is one.
    pub(crate) fn moved(&self) -> u32 {
        self.before.min(1)
    }

    // The count that a train is to have.
    fn count(&self, train: u32) -> u32 {
        match self.job {
            Job::Transfer(from, _) if train == from => self.before.wrapping_sub(self.moved()),
            Job::Transfer(..) => self.last.wrapping_add(self.moved()),
            Job::Dispatch(_) | Job::Audit => self.last.wrapping_add(1),
        }
    }

    /// The call that comes next.
    pub(crate) fn call(&self, console: u32) -> Call<u32> {
        match self.step {
            Step::Begin => Call::Begin(console),
            Step::Read(train) => Call::Read(console, train),
            Step::Write(train) => Call::Write(console, train, self.count(train)),
            Step::Commit => Call::Commit(console),
        }
    }

    /// The task once its call was accepted.
    pub(crate) fn stepped(self) -> Task {
        Task {
            step: self.job.after(self.step),
            ..self
        }
    }

    /// The task once it has read a count.
    pub(crate) fn read(self, count: u32) -> Task {
        Task {
            before: self.last,
            last: count,
            ..self.stepped()
        }
    }
}
