// A whole run: a log opened and played in one call.
use crate::say::{Answered, Size, tell};
use crate::scenes::Scene;
use certifier::Call;
use runs::{Outcome, run};
use store::Store;

// Plays a run of that size.
fn one<S: Store<u32>>(rt: HostRuntime, size: Size, calls: &[Call<u32>]) -> anyhow::Result<()> {
    println!(rt; "# run: {size}")?;
    let Size { records, places } = size;
    match run::<S, u32>(rt.alloc(), records, places, 0, calls) {
        Ok(Outcome { log, answers, .. }) => {
            for (call, answer) in calls.iter().zip(answers.iter()) {
                tell(rt, "run", *call, Answered::from(*answer))?;
            }
            Scene { rt, table: log }.end()
        }
        Err(fault) => {
            let answered = Answered(Err(fault.into()));
            println!(rt; "run open {records} {places}: {answered}")?;
            Ok(())
        }
    }
}

/// Shows a run, and one that does not open.
pub(crate) fn show<S: Store<u32>>(rt: HostRuntime) -> anyhow::Result<()> {
    let calls = [
        Call::Begin(0),
        Call::Begin(1),
        Call::Read(0, 0),
        Call::Write(0, 0, 5),
        Call::Read(0, 0),
        Call::Write(1, 0, 6),
        Call::Read(0, 2),
        Call::Commit(0),
        Call::Commit(0),
        Call::Drop(1),
        Call::Drop(16),
    ];
    one::<S>(rt, Size::new(2, 4), &calls)?;
    one::<S>(rt, Size::new(0, 4), &calls)
}
