ghost use Rattle.std.specs.Prelude.{◌≡◌, IfOk};
ghost use Rattle.store.specs.Meaning.{shut_all};
ghost use Rattle.versions.specs.Sessions.{consoles_of, records_of};

use crate::session::{Hold, Session};
use crate::sessions::Sessions;
use std::alloc::{AllocError, Global};
use store::{ConsoleId, TableSize};

impl<E: Copy> Sessions<E> {
    // Sixteen consoles, all shut, over the records of a table. A console has one pending entry a record at most.
    pub(crate) fn fresh(heap: Global, size: TableSize) -> Result<Sessions<E>, AllocError>
        ensures { IfOk result (λ d. (consoles_of d ≡ shut_all 16) × (records_of d ≡ size.records)) }
    {
        let records = usize::from(size.records);
        let mut sessions = Vec::with_capacity(heap, 16)?;
        for _console in 0..16u32 {
            let pending = Vec::with_capacity(heap, records)?;
            sessions.push_reserved(Session {
                began: None,
                pending,
            });
        }
        let nowhere = Hold {
            console: ConsoleId { number: 0 },
            place: 0,
        };
        let holds = vec![in heap; nowhere; records]?;
        Ok(Sessions {
            count: 0,
            sessions,
            holds,
        })
    }
}
