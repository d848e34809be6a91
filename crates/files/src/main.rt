// Day files at their edges: a line for each case, with what it was answered.
#![tactic(auto)]

use std::io;

mod copying;
mod reading;
mod say;
mod writing;

fn main(rt: HostRuntime) -> io::Result<()> {
    reading::show(rt)?;
    writing::show(rt)?;
    copying::show(rt)
}
