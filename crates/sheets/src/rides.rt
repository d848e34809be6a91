// The rules of the store and of the certifier at work, on either kind.
use crate::show;

// Sheets by their names: commits that would close a cycle, and one that is refused without, on both kinds; commits that
// are granted, with their ranks; and what the store refuses.
// Kept: each is written out, since formatting one takes memory.
const SHEETS: [(&str, &str); 17] = [
    (
        "write skew, newest",
        "open 2 8 newest\nbegin 0\nbegin 1\nread 0 0\nread 0 1\nread 1 0\nread 1 1\nwrite 0 0 5\nwrite 1 1 7\ncommit 0\ncommit 1\n",
    ),
    (
        "write skew, snapshot",
        "open 2 8 snapshot\nbegin 0\nbegin 1\nread 0 0\nread 0 1\nread 1 0\nread 1 1\nwrite 0 0 5\nwrite 1 1 7\ncommit 0\ncommit 1\n",
    ),
    (
        "a commit between two reads, newest",
        "open 1 4 newest\nbegin 0\nread 0 0\nbegin 1\nwrite 1 0 5\ncommit 1\nread 0 0\ncommit 0\n",
    ),
    (
        "a commit between two reads, snapshot",
        "open 1 4 snapshot\nbegin 0\nread 0 0\nbegin 1\nwrite 1 0 5\ncommit 1\nread 0 0\ncommit 0\n",
    ),
    (
        "false alarm, newest",
        "open 2 8 newest\nbegin 0\nread 0 0\nbegin 1\nwrite 1 0 5\ncommit 1\nbegin 1\nwrite 1 1 7\ncommit 1\nread 0 1\ncommit 0\n",
    ),
    (
        "false alarm, snapshot",
        "open 2 8 snapshot\nbegin 0\nread 0 0\nbegin 1\nwrite 1 0 5\ncommit 1\nbegin 1\nwrite 1 1 7\ncommit 1\nread 0 1\ncommit 0\n",
    ),
    (
        "late reader",
        "open 1 4\nbegin 0\nread 0 0\nbegin 1\nwrite 1 0 5\ncommit 1\ncommit 0\n",
    ),
    (
        "not by time",
        "open 2 8\nbegin 1\nread 1 0\nbegin 2\nwrite 2 0 5\ncommit 2\nbegin 0\nread 0 1\nwrite 1 1 7\ncommit 1\ncommit 0\n",
    ),
    (
        "a granted back edge",
        "open 2 8\nbegin 1\nwrite 1 0 5\ncommit 1\nbegin 0\nread 0 0\nread 0 1\nbegin 2\nwrite 2 1 7\ncommit 2\ncommit 0\n",
    ),
    ("an empty transaction", "open 1 1\nbegin 0\ncommit 0\n"),
    (
        "two rides, one after the other",
        "open 2 8\nbegin 0\nread 0 0\nwrite 0 0 1\ncommit 0\nbegin 1\nread 1 0\nwrite 1 1 2\ncommit 1\n",
    ),
    (
        "a newer version, newest",
        "open 1 4 newest\nbegin 0\nbegin 1\nwrite 1 0 5\ncommit 1\nwrite 0 0 6\ncommit 0\n",
    ),
    (
        "a newer version, snapshot",
        "open 1 4 snapshot\nbegin 0\nbegin 1\nwrite 1 0 5\ncommit 1\nread 0 0\nwrite 0 0 6\ncommit 0\n",
    ),
    (
        "held, then dropped",
        "open 2 8\nbegin 0\nbegin 1\nwrite 0 0 5\nwrite 1 0 6\nread 1 0\ndrop 0\nwrite 1 0 6\ncommit 1\n",
    ),
    (
        "own entry",
        "open 1 4\nbegin 0\nwrite 0 0 5\nread 0 0\nwrite 0 0 6\nread 0 0\ncommit 0\nbegin 0\nread 0 0\n",
    ),
    (
        "room of two",
        "open 1 2\nbegin 0\nwrite 0 0 5\nwrite 0 0 6\nread 0 0\ncommit 0\nbegin 0\nread 0 0\nwrite 0 0 7\ncommit 0\n",
    ),
    (
        "what the log refuses",
        "open 2 8\nbegin 16\nread 0 0\nwrite 0 0 1\ncommit 0\ndrop 0\nbegin 0\nbegin 0\nread 0 2\nwrite 0 2 1\nread 16 0\nwrite 16 0 1\ncommit 16\ndrop 16\ndrop 0\ndrop 0\n",
    ),
];

/// Shows the rules at work.
pub(crate) fn show_all(rt: HostRuntime) -> anyhow::Result<()> {
    for (name, sheet) in &SHEETS {
        show(rt, name, sheet.as_bytes())?;
    }
    Ok(())
}
