// Day files: the writer, and whole files written and copied.
#![tactic(auto)]

mod put;
mod state;
mod whole;
mod write;

pub use state::{ClosedFile, OpenFile, Progress};
pub use whole::{copy_file, write_file};

/// An entry to write: any numbers, of which those in range are taken.
#[derive(Clone, Copy)]
pub struct NewEntry<'e> {
    pub console: u32,
    pub low: u32,
    pub reads: &'e [u32],
    pub writes: &'e [u32],
}
