ghost use Rattle.certifier.specs.Logs.{OpensLog};

use crate::log::Log;
use crate::marks::Marks;
use crate::ranks::Ranks;
use crate::track::Tracks;
use std::alloc::Global;
use std::marker::PhantomData;
use store::{OpenFault, Store, TableSize};

impl<S: Store<E>, E: Copy> Log<S, E> {
    /// Opens a log of `size` records, each at the entry `first`, in a store with `room` places. It takes all its memory
    /// here. Refused: 12 where `size` is not 1 to 256 or `room` not `size` to 2,048; want of memory.
    pub fn open(heap: Global, size: u32, room: u32, first: E) -> Result<Log<S, E>, OpenFault>
        ensures { OpensLog S.Store.state size room first result }
    {
        let table = TableSize::new(size, room)?;
        let store = S::open(heap, size, room, first)?;
        let marks = Marks::open(heap, table)?;
        let ranks = Ranks::open(heap)?;
        let tracks = Tracks::new();
        Ok(Log {
            store,
            marks,
            tracks,
            ranks,
            entries: PhantomData,
        })
    }
}
