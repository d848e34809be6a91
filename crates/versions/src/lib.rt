// A store of versions, of a kind K, over one table of places.
#![tactic(auto)]

ghost use Rattle.std.specs.Prelude.{◌≡◌, ℕ, ◌+◌, ◌≤◌, length};
ghost use Rattle.store.specs.Meaning.{versions_in, pending_in};
ghost use Rattle.versions.specs.Tables.{chains_of, room_of};
ghost use Rattle.versions.specs.Sessions.{consoles_of, records_of};

use crate::sessions::Sessions;
use crate::table::Table;
use std::marker::PhantomData;

pub mod calls;
mod row;
mod session;
mod sessions;
mod table;

/// A store of versions of the kind `K`.
#[derive(Drop)]
pub struct Versions<E, K> {
    kind: PhantomData<K>,
    clock: u16,
    table: Table<E>,
    sessions: Sessions<E>,
    ghost times: { clock ≤ 4000 },
    ghost alike: { records_of sessions ≡ length (chains_of table) },
    ghost used: { versions_in (chains_of table) + pending_in (consoles_of sessions) ≤ room_of table },
}
