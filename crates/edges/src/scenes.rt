// What a store and a log refuse alike.
use crate::say::{Answered, Fault, Said, Size, tell};
use anyhow::anyhow;
use certifier::Call;
use std::alloc::Global;
use std::io;
use store::OpenFault;

/// What takes the calls of a run: a store, or a log.
pub(crate) trait Ask: Drop {
    /// What the lines of its calls begin with.
    const NAME: &'static str;

    /// A fresh one, of entries 0.
    fn fresh(heap: Global, size: Size) -> Result<Self, OpenFault>;

    /// Makes the call, and says what it was answered.
    fn ask(&mut self, call: Call<u32>) -> Result<Said, Fault>;

    fn commits(&self) -> u16;

    fn records(&self) -> u32;
}

/// A store or a log under way, and where its lines go.
#[derive(Drop)]
pub(crate) struct Scene<T> {
    pub(crate) rt: HostRuntime,
    pub(crate) table: T,
}

impl<T: Ask> Scene<T> {
    /// A fresh one of a size that is in its ranges.
    pub(crate) fn fresh(rt: HostRuntime, size: Size) -> anyhow::Result<Scene<T>> {
        let table = T::fresh(rt.alloc(), size).map_err(|_| anyhow!("it does not open"))?;
        Ok(Scene { rt, table })
    }

    /// A fresh one under a title.
    pub(crate) fn open(rt: HostRuntime, title: &str, size: Size) -> anyhow::Result<Scene<T>> {
        let name = T::NAME;
        println!(rt; "# {name}, {title}: {size}")?;
        Scene::fresh(rt, size)
    }

    /// Makes the calls in their sequence, and prints each.
    pub(crate) fn play(&mut self, calls: &[Call<u32>]) -> io::Result<()> {
        for call in calls {
            let answer = self.table.ask(*call);
            tell(self.rt, T::NAME, *call, Answered::from(answer))?;
        }
        Ok(())
    }

    /// Makes the call of each number below `count`, and answers how many of them were accepted.
    pub(crate) fn accepted<F: FnMut(u32) -> Call<u32>>(&mut self, count: u32, call: F) -> usize
        requires { (f : _) (at : _) → F.pre f at }
    {
        (0..count)
            .map(call)
            .filter(|call| self.table.ask(*call).is_ok())
            .count()
    }

    /// Prints the clock and the size.
    pub(crate) fn end(&self) -> anyhow::Result<()> {
        let name = T::NAME;
        let clock = self.table.commits();
        let size = self.table.records();
        println!(self.rt; "{name} clock {clock} size {size}")?;
        Ok(())
    }

    // Plays a list of calls on a fresh one, under a title.
    fn whole(rt: HostRuntime, title: &str, size: Size, calls: &[Call<u32>]) -> anyhow::Result<()> {
        let mut scene: Scene<T> = Scene::open(rt, title, size)?;
        scene.play(calls)?;
        scene.end()
    }
}

/// Shows a store or a log at its edges.
pub(crate) fn show<T: Ask>(rt: HostRuntime) -> anyhow::Result<()> {
    openings::<T>(rt)?;
    consoles::<T>(rt)?;
    records::<T>(rt)?;
    holds::<T>(rt)?;
    places::<T>(rt)?;
    day::<T>(rt)
}

// 12 outside the ranges.
fn openings<T: Ask>(rt: HostRuntime) -> io::Result<()> {
    let name = T::NAME;
    println!(rt; "# {name}, opening")?;
    let sizes = [
        Size::new(0, 4),
        Size::new(1, 0),
        Size::new(1, 1),
        Size::new(5, 4),
        Size::new(1, 2048),
        Size::new(1, 2049),
        Size::new(256, 2048),
        Size::new(257, 300),
    ];
    for size in sizes {
        let Size { records, places } = size;
        let opened = T::fresh(rt.alloc(), size);
        let answered = Answered::from(opened.map(|table| table.records()));
        println!(rt; "{name} open {records} {places}: {answered}")?;
    }
    Ok(())
}

// 1 above console 15, 4 where a console is open, 3 where it is shut.
fn consoles<T: Ask>(rt: HostRuntime) -> anyhow::Result<()> {
    let calls = [
        Call::Begin(15),
        Call::Begin(16),
        Call::Begin(15),
        Call::Read(16, 0),
        Call::Read(14, 0),
        Call::Write(16, 0, 5),
        Call::Write(14, 0, 5),
        Call::Commit(16),
        Call::Commit(14),
        Call::Drop(16),
        Call::Drop(14),
        Call::Commit(15),
        Call::Commit(15),
        Call::Begin(15),
        Call::Drop(15),
        Call::Drop(15),
    ];
    Scene::<T>::whole(rt, "consoles", Size::new(2, 4), &calls)
}

// 2 past the last record, which comes after 1 and 3. A console reads its own entry back.
fn records<T: Ask>(rt: HostRuntime) -> anyhow::Result<()> {
    let calls = [
        Call::Begin(0),
        Call::Read(0, 1),
        Call::Read(0, 2),
        Call::Read(1, 2),
        Call::Read(16, 2),
        Call::Write(0, 1, 5),
        Call::Write(0, 2, 5),
        Call::Write(1, 2, 5),
        Call::Write(16, 2, 5),
        Call::Read(0, 1),
        Call::Write(0, 1, 6),
        Call::Read(0, 1),
        Call::Commit(0),
        Call::Begin(0),
        Call::Read(0, 1),
    ];
    Scene::<T>::whole(rt, "records and own entries", Size::new(2, 4), &calls)
}

// 7 at another console's record, until that console drops or commits.
fn holds<T: Ask>(rt: HostRuntime) -> anyhow::Result<()> {
    let calls = [
        Call::Begin(0),
        Call::Begin(1),
        Call::Write(0, 0, 5),
        Call::Write(1, 0, 6),
        Call::Read(1, 0),
        Call::Write(1, 1, 7),
        Call::Drop(0),
        Call::Write(1, 0, 6),
        Call::Begin(0),
        Call::Write(0, 0, 8),
        Call::Commit(1),
        Call::Write(0, 0, 8),
        Call::Read(0, 0),
        Call::Read(0, 1),
        Call::Commit(0),
    ];
    Scene::<T>::whole(
        rt,
        "records held by another console",
        Size::new(2, 8),
        &calls,
    )
}

// 9 past the last place, which comes after 7. A second write to a record takes no place, and a drop gives places back.
fn places<T: Ask>(rt: HostRuntime) -> anyhow::Result<()> {
    let calls = [
        Call::Begin(0),
        Call::Begin(1),
        Call::Write(0, 0, 5),
        Call::Write(0, 1, 6),
        Call::Write(0, 2, 7),
        Call::Write(0, 0, 8),
        Call::Write(1, 2, 7),
        Call::Write(1, 0, 7),
        Call::Drop(0),
        Call::Write(1, 2, 7),
        Call::Commit(1),
        Call::Begin(0),
        Call::Write(0, 0, 5),
        Call::Write(0, 1, 6),
        Call::Commit(0),
        Call::Begin(1),
        Call::Write(1, 1, 9),
        Call::Commit(1),
    ];
    Scene::<T>::whole(rt, "a full table", Size::new(3, 5), &calls)
}

// 8 where a later version stands than the console began with, which comes after 7 and before 9.
pub(crate) fn stale<T: Ask>(rt: HostRuntime) -> anyhow::Result<()> {
    let calls = [
        Call::Begin(0),
        Call::Begin(1),
        Call::Begin(2),
        Call::Write(0, 0, 5),
        Call::Write(0, 2, 5),
        Call::Commit(0),
        Call::Read(1, 0),
        Call::Write(1, 0, 6),
        Call::Write(1, 1, 6),
        Call::Begin(0),
        Call::Read(0, 0),
        Call::Write(0, 0, 7),
        Call::Write(1, 0, 6),
        Call::Write(0, 2, 7),
        Call::Write(2, 2, 8),
        Call::Commit(1),
        Call::Commit(0),
    ];
    Scene::<T>::whole(rt, "stale writes", Size::new(3, 7), &calls)
}

// 10 at the 4,001st commit, whose transaction stays open.
fn day<T: Ask>(rt: HostRuntime) -> anyhow::Result<()> {
    let name = T::NAME;
    let size = Size::new(1, 2);
    println!(rt; "# {name}, a full day: {size}, after 3999 empty commits")?;
    let mut scene: Scene<T> = Scene::fresh(rt, size)?;
    for _commit in 0..3999u32 {
        let _ = scene.table.ask(Call::Begin(0));
        let _ = scene.table.ask(Call::Commit(0));
    }
    let calls = [
        Call::Begin(0),
        Call::Commit(0),
        Call::Begin(0),
        Call::Write(0, 0, 5),
        Call::Commit(0),
        Call::Commit(0),
        Call::Read(0, 0),
        Call::Drop(0),
        Call::Commit(0),
    ];
    scene.play(&calls)?;
    scene.end()
}
