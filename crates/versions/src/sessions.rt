// The sixteen consoles. For each record `holds` says where its pending entry stands, if it has one: a hold is taken
// for true only if the entry that it leads to is of that record, so that no hold has to be taken back.
ghost use Rattle.std.specs.Prelude.{◌≡◌, ℕ, length, vec_len};
ghost use Rattle.store.specs.Meaning.{pending_in};
ghost use Rattle.versions.specs.Session.{Reserved, Empty, Listed, Held, Placed, consoles_from};

use crate::session::{Hold, Session};

mod calls;
mod fresh;

// Kept: no Model; a clause reads the consoles or the number of records, and in a record of both it would read the same two.
#[derive(Drop)]
pub(crate) struct Sessions<E> {
    count: usize,
    sessions: Vec<Session<E>>,
    holds: Vec<Hold>,
    ghost sixteen: { vec_len sessions ≡ 16 },
    ghost reserved: { Reserved (length holds.items) sessions.items },
    ghost empty: { Empty sessions.items },
    ghost listed: { Listed holds.items (consoles_from sessions.items) },
    ghost held: { Held holds.items (consoles_from sessions.items) },
    ghost placed: { Placed holds.items (consoles_from sessions.items) },
    ghost counted: { count ≡ pending_in (consoles_from sessions.items) },
}
