// Call sheets at the edges of the format and of the rules, and what each prints.
#![tactic(auto)]

use sheet::answer_sheet;

mod faults;
mod rides;

/// Answers a sheet, and prints its name and what it prints.
pub(crate) fn show(rt: HostRuntime, name: &str, sheet: &[u8]) -> anyhow::Result<()> {
    let text = answer_sheet(rt.alloc(), sheet)?;
    println!(rt; "== {name}")?;
    rt.print(text)?;
    Ok(())
}

fn main(rt: HostRuntime) -> anyhow::Result<()> {
    faults::show_all(rt)?;
    rides::show_all(rt)
}
