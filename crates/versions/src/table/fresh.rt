ghost use Rattle.std.specs.Prelude.{◌≡◌, ℕ, ◌≤◌, IfOk};
ghost use Rattle.store.specs.Meaning.{firsts};
ghost use Rattle.versions.specs.Tables.{chains_of, room_of, first_of, next_of};

use crate::row::Row;
use crate::table::Table;
use std::alloc::{AllocError, Global};
use store::{TableSize, Version};

impl<E: Copy> Table<E> {
    // A table with the first version of each record in the first of its places.
    pub(crate) fn fresh(heap: Global, first: E, size: TableSize) -> Result<Table<E>, AllocError>
        ensures { IfOk result (λ a. (chains_of a ≡ firsts first 0 size.records) × (room_of a ≡ size.places) × (first_of a ≡ first) × (next_of a ≡ size.records)) }
    {
        let TableSize {
            records,
            places: room,
        } = size;
        let places = (0..room)
            .map(|place| {
                (place < records).then_some(Row {
                    version: Version {
                        number: u32::from(place),
                        stamp: 0,
                        entry: first,
                    },
                    owner: u32::from(place),
                    older: None,
                })
            })
            .collect(heap)?;
        let newest = (0..records).collect(heap)?;
        let mut free = Vec::with_capacity(heap, usize::from(room))?;
        free.extend(records..room)?;
        Ok(Table {
            first,
            places,
            newest,
            free,
        })
    }
}
