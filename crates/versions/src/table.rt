// The versions of every record in one table of places, with a list of the free ones.
ghost use Rattle.std.specs.Prelude.{◌≡◌, ℕ, ◌≤◌, vec_len, vec_capacity};
ghost use Rattle.versions.specs.Places.{Down, Live, Mine, Headed, Owned, Numbered, Inside, Vacant, Apart, Counted};

use crate::row::Row;

mod calls;
mod fresh;

// Kept: one arena of places with links and a stack of the free ones, since all memory is taken at opening.
// Kept: no Model; a clause reads the chains, the room or the first entry, and in a record of all it would read the same three.
#[derive(Drop)]
pub(crate) struct Table<E> {
    first: E,
    places: Vec<Option<Row<E>>>,
    newest: Vec<u16>,
    free: Vec<u16>,
    ghost fits: { (vec_len places ≤ 2048) × (vec_len newest ≤ 2048) × (vec_len places ≤ vec_capacity free) },
    ghost down: { Down places.items },
    ghost live: { Live places.items },
    ghost mine: { Mine places.items },
    ghost headed: { Headed places.items newest.items },
    ghost owned: { Owned places.items newest.items },
    ghost numbered: { Numbered first places.items newest.items },
    ghost inside: { Inside places.items free.items },
    ghost vacant: { Vacant places.items free.items },
    ghost apart: { Apart free.items },
    ghost counted: { Counted first places.items newest.items free.items },
}
