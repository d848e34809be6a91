// Numbers in their ranges: of a console, and of a table.
ghost use Rattle.std.specs.Prelude.{◌<◌};
ghost use Rattle.store.specs.Meaning.{Range};

mod checks;

/// The number of one of the sixteen consoles.
#[derive(Clone, Copy, PartialEq, Eq)]
pub struct ConsoleId {
    pub number: u32,
    ghost few: { number < 16 },
}

/// How large a table is: its records, and its places for versions.
#[derive(Clone, Copy)]
pub struct TableSize {
    pub records: u16,
    pub places: u16,
    ghost ranges: { Range records places },
}
