// What a store lets through that a log refuses.
use crate::say::Size;
use crate::scenes::{Ask, Scene};
use certifier::Call;

/// Seventeen records written in one transaction.
pub(crate) fn show<T: Ask>(rt: HostRuntime) -> anyhow::Result<()> {
    let mut scene: Scene<T> = Scene::open(rt, "many writes", Size::new(17, 34))?;
    scene.play(&[Call::Begin(0)])?;
    let accepted = scene.accepted(17, |at| Call::Write(0, at, at));
    println!(rt; "store write 0 to 17 records: {accepted} accepted")?;
    let calls = [
        Call::Commit(0),
        Call::Begin(0),
        Call::Read(0, 0),
        Call::Read(0, 16),
    ];
    scene.play(&calls)?;
    scene.end()
}
