// What only a log refuses, and what it tells.
use crate::say::{Answered, Size};
use crate::scenes::Scene;
use certifier::{Call, Log};
use std::io;
use store::Store;

/// Shows a log at the edges of its own.
pub(crate) fn show<S: Store<u32>>(rt: HostRuntime) -> anyhow::Result<()> {
    reads::<S>(rt)?;
    writes::<S>(rt)?;
    verdicts::<S>(rt)?;
    orders::<S>(rt)
}

impl<S: Store<u32>> Scene<Log<S, u32>> {
    // Prints the marks of the first so many versions.
    fn marks(&self, count: u32) -> io::Result<()> {
        for version in 0..count {
            let answered = Answered::from(self.table.marks(version));
            println!(self.rt; "log marks {version}: {answered}")?;
        }
        Ok(())
    }

    // Prints what a list holds after it was handed over for the commit stamps by rank.
    fn order(&self, list: &mut [u32]) -> io::Result<()> {
        let places = list.len();
        let answered = Answered::from(self.table.order(list));
        println!(self.rt; "log order in {places} places: {answered}, {list:?}")
    }
}

// 5 at the 65th version. One that is noted already, and an own entry, are read all the same.
fn reads<S: Store<u32>>(rt: HostRuntime) -> anyhow::Result<()> {
    let mut scene: Scene<Log<S, u32>> = Scene::open(rt, "noted versions", Size::new(65, 66))?;
    scene.play(&[Call::Begin(0)])?;
    let accepted = scene.accepted(63, |at| Call::Read(0, at));
    println!(rt; "log read 0 of 63 records: {accepted} accepted")?;
    let calls = [
        Call::Read(0, 63),
        Call::Read(0, 64),
        Call::Read(0, 65),
        Call::Read(0, 0),
        Call::Read(0, 63),
        Call::Write(0, 64, 5),
        Call::Read(0, 64),
        Call::Commit(0),
        Call::Begin(0),
        Call::Read(0, 64),
    ];
    scene.play(&calls)?;
    scene.end()
}

// 6 at the 17th record, which comes after 2 and before 7. A record that is written already is written again.
fn writes<S: Store<u32>>(rt: HostRuntime) -> anyhow::Result<()> {
    let mut scene: Scene<Log<S, u32>> = Scene::open(rt, "written records", Size::new(17, 40))?;
    scene.play(&[Call::Begin(0), Call::Begin(1)])?;
    let accepted = scene.accepted(15, |at| Call::Write(0, at, at));
    println!(rt; "log write 0 to 15 records: {accepted} accepted")?;
    let calls = [
        Call::Write(0, 15, 5),
        Call::Write(0, 16, 5),
        Call::Write(0, 15, 6),
        Call::Write(0, 0, 7),
        Call::Write(0, 17, 5),
        Call::Write(1, 16, 5),
        Call::Write(0, 16, 5),
        Call::Read(0, 15),
        Call::Commit(0),
        Call::Begin(0),
        Call::Write(0, 16, 5),
        Call::Write(0, 3, 5),
    ];
    scene.play(&calls)?;
    scene.end()
}

// Each of two transactions overwrites what the other read: the second is answered 11, and is over. 13 at a version that
// does not exist yet.
fn verdicts<S: Store<u32>>(rt: HostRuntime) -> anyhow::Result<()> {
    let mut scene: Scene<Log<S, u32>> = Scene::open(rt, "marks and verdicts", Size::new(2, 4))?;
    scene.marks(3)?;
    let crossing = [
        Call::Begin(0),
        Call::Begin(1),
        Call::Read(0, 0),
        Call::Read(1, 1),
        Call::Write(0, 1, 5),
        Call::Write(1, 0, 6),
        Call::Commit(0),
    ];
    scene.play(&crossing)?;
    scene.marks(4)?;
    scene.play(&[Call::Commit(1), Call::Commit(1)])?;
    scene.marks(4)?;
    scene.play(&[Call::Begin(1), Call::Write(1, 0, 6), Call::Commit(1)])?;
    scene.marks(5)?;
    scene.end()
}

// 14 at a list that is one short. The first two commits share a low mark, so the later one comes first.
fn orders<S: Store<u32>>(rt: HostRuntime) -> anyhow::Result<()> {
    let mut scene: Scene<Log<S, u32>> = Scene::open(rt, "the order", Size::new(1, 3))?;
    scene.order(&mut [])?;
    let calls = [
        Call::Begin(0),
        Call::Read(0, 0),
        Call::Begin(1),
        Call::Write(1, 0, 5),
        Call::Commit(1),
        Call::Commit(0),
        Call::Begin(0),
        Call::Commit(0),
    ];
    scene.play(&calls)?;
    scene.order(&mut [9, 9])?;
    scene.order(&mut [9, 9, 9])?;
    scene.order(&mut [9, 9, 9, 9, 9])?;
    scene.end()
}
