ghost use Rattle.std.specs.Prelude.{◌≡◌, replicate, IfOk};
ghost use Rattle.certifier.specs.Marking.{new_mark};

use crate::Mark;
use crate::marks::Marks;
use std::alloc::{AllocError, Global};
use store::TableSize;

impl Marks {
    // The table of a fresh log, with so many places: a row for each version of the opening.
    pub(crate) fn open(heap: Global, size: TableSize) -> Result<Marks, AllocError>
        ensures { IfOk result (λ m. (m.rows.items ≡ replicate size.records (new_mark 0)) × (m.places ≡ size.places)) }
    {
        let places = usize::from(size.places);
        let mut rows = Vec::with_capacity(heap, places)?;
        rows.resize(usize::from(size.records), Mark::new(0))?;
        Ok(Marks { places, rows })
    }
}
