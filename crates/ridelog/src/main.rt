// The ride log's program. Without a word it answers the call sheet on standard input; with the word `file` it writes the
// day file that the sheet leaves, and with the word `show` it prints the last day file in its input.
#![tactic(auto)]

use anyhow::bail;
use filing::show_file;
use sheet::{LIMIT, answer_sheet, file_sheet};
use std::env;
use std::io::{Read, Write};
use std::str::FromStr;

// The bytes that are read of a sheet: by one more than its limit it shows that it is longer.
const MOST: u64 = LIMIT as u64 + 1;

const USAGE: &str = "usage: ridelog < SHEET          answers the call sheet
       ridelog file < SHEET     writes the day file that the sheet leaves
       ridelog show < FILE      prints the last day file in the input";

/// What the program is asked for.
#[derive(Clone, Copy)]
enum Task {
    Sheet,
    File,
    Show,
}

impl FromStr for Task {
    type Err = anyhow::Error;

    fn from_str(word: &str) -> anyhow::Result<Task> {
        match word {
            "file" => Ok(Task::File),
            "show" => Ok(Task::Show),
            _ => bail!("no such word"),
        }
    }
}

// What the words of the command ask for.
fn task_of(mut words: env::Args) -> anyhow::Result<Task> {
    let _program = words.next();
    match (words.next(), words.next()) {
        (None, _) => Ok(Task::Sheet),
        (Some(word), None) => word.as_str().parse(),
        (Some(_), Some(_)) => bail!("no such word"),
    }
}

// All bytes of an input.
fn read(rt: &HostRuntime, mut input: impl Read + Drop) -> anyhow::Result<Vec<u8>> {
    let mut bytes = Vec::new(rt.alloc());
    input.read_to_end(&mut bytes)?;
    Ok(bytes)
}

// Does what is asked for.
fn perform(rt: &HostRuntime, task: Task) -> anyhow::Result<()> {
    match task {
        Task::Sheet => {
            let sheet = read(rt, rt.stdin().take(MOST))?;
            rt.print(answer_sheet(rt.alloc(), sheet.as_slice())?)?;
        }
        Task::File => {
            let sheet = read(rt, rt.stdin().take(MOST))?;
            let bytes = file_sheet(rt.alloc(), sheet.as_slice())?;
            rt.stdout().write_all(bytes.as_slice())?;
        }
        Task::Show => {
            let bytes = read(rt, rt.stdin())?;
            rt.print(show_file(rt.alloc(), bytes.as_slice())?)?;
        }
    }
    Ok(())
}

fn main(rt: HostRuntime) -> anyhow::Result<()> {
    match task_of(env::args(&rt)?) {
        Ok(task) => perform(&rt, task),
        Err(e) => {
            rt.eprintln(USAGE)?;
            Err(e)
        }
    }
}
