// One console: its begin stamp while it is open, and what it has pending, by first write.
use store::{ConsoleId, Pending};

// Kept: the list stands beside a stamp that may be absent, since a shut console keeps the memory that its list took at opening.
#[derive(Drop)]
pub(crate) struct Session<E> {
    pub(crate) began: Option<u16>,
    pub(crate) pending: Vec<Pending<E>>,
}

// Where a record's pending entry stands, if it still does: the console, and its place among that console's entries.
// Kept: no Option, since each record has a hold from opening on, and to shut a console takes none back: that takes constant time.
#[derive(Clone, Copy)]
pub(crate) struct Hold {
    pub(crate) console: ConsoleId,
    pub(crate) place: u32,
}
