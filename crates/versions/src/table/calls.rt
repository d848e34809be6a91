ghost use Rattle.std.specs.Prelude.{◌≡◌, ℕ, ◌+◌, ◌-◌, ◌<◌, ◌≤◌, Some, [], ◌∷◌, ◌++◌, length, slice_index_or, slice_set};
ghost use Rattle.store.specs.Meaning.{origin, versions_in, picked, appended};
ghost use Rattle.versions.specs.Places.{depth, place_at};
ghost use Rattle.versions.specs.Session.{Within};
ghost use Rattle.versions.specs.Tables.{places_of, chains_of, room_of, first_of, next_of, Grows};

use crate::row::Row;
use crate::table::Table;
use store::kind::Kind;
use store::{Pending, Version};

// Kept: `at < length (chains_of ..)` is asked by three methods, since the bound is a number of the value and no type states it.
impl<E: Copy> Table<E> {
    // How many records there are.
    pub(crate) fn size(&self) -> u32
        ensures { result ≡ length (chains_of self.now) }
    {
        self.newest.len() as u32
    }

    // How many places there are.
    pub(crate) fn room(&self) -> usize
        ensures { result ≡ room_of self.now }
    {
        self.places.len()
    }

    // How many places hold a version.
    pub(crate) fn count(&self) -> usize
        ensures { result ≡ versions_in (chains_of self.now) }
    {
        self.places.len() - self.free.len()
    }

    // The row of a place that has a version.
    fn used(&self, place: u16) -> &Row<E>
        requires { 0 < depth (places_of self.now) place }
        ensures { Some result.now ≡ place_at (places_of self.now) place }
    {
        self.places[place as usize].as_ref().unwrap()
    }

    // The version of the record `at` that a read sees which began at `began`.
    pub(crate) fn shown<K: Kind>(&self, at: u32, began: u16) -> &Version<E>
        requires { at < length (chains_of self.now) }
        ensures { result.now ≡ picked K.Kind.rules (origin (first_of self.now)) (slice_index_or (chains_of self.now) at []) began }
    {
        let mut row = self.used(self.newest[at as usize]);
        // Kept: a loop, since the oldest version is the answer where none passes, and `find` would give nothing there.
        while !K::shows(row.version.stamp, began) {
            let Some(older) = row.older else {
                break;
            };
            row = self.used(older);
        }
        &row.version
    }

    // The newest version of the record `at`.
    pub(crate) fn newest(&self, at: u32) -> Version<E>
        requires { at < length (chains_of self.now) }
        ensures { result ≡ slice_index_or (slice_index_or (chains_of self.now) at []) (length (slice_index_or (chains_of self.now) at []) - 1) (origin (first_of self.now)) }
    {
        self.used(self.newest[at as usize]).version
    }

    // Makes an entry the newest version of the record `at`, with the next number.
    pub(crate) fn push(&mut self, at: u32, stamp: u16, entry: E)
        requires within { at < length (chains_of self.old) }
        requires room { versions_in (chains_of self.old) < room_of self.old }
        ensures { Grows self.old self.new (slice_set (chains_of self.old) at (slice_index_or (chains_of self.old) at [] ++ record { number = next_of self.old; stamp = stamp; entry = entry } ∷ [])) 1 }
    {
        let version = Version {
            number: self.count() as u32,
            stamp,
            entry,
        };
        let place = self.free.pop().unwrap();
        let older = Some(self.newest[at as usize]);
        self.places[place as usize] = Some(Row {
            version,
            owner: at,
            older,
        });
        self.newest[at as usize] = place;
    }

    // Makes the entries, in their order, the newest versions of their records, with the next numbers.
    pub(crate) fn append(&mut self, pending: &[Pending<E>], stamp: u16)
        requires within { Within (length (chains_of self.old)) pending.now }
        requires room { versions_in (chains_of self.old) + length pending.now ≤ room_of self.old }
        ensures { Grows self.old self.new (appended (chains_of self.old) stamp (next_of self.old) pending.now) (length pending.now) }
    {
        for p in pending {
            self.push(p.at, stamp, p.entry);
        }
    }
}
