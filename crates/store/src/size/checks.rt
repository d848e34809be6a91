// Numbers are taken where they are in their ranges.
ghost use Rattle.store.specs.Ranges.{Names, Measures};

use crate::size::{ConsoleId, TableSize};
use crate::{OpenFault, PLACES, RECORDS, Refusal};

impl TryFrom<u32> for ConsoleId {
    type Error = Refusal;

    ghost try_from_gives = { Names };

    fn try_from(number: u32) -> Result<ConsoleId, Refusal> {
        if number < 16 {
            Ok(ConsoleId { number })
        } else {
            Err(Refusal::NoConsole)
        }
    }
}

impl TableSize {
    /// The size of a table of so many records and places. Refused: 12 where `records` is not 1 to 256 or `places` not
    /// `records` to 2,048.
    pub fn new(records: u32, places: u32) -> Result<TableSize, OpenFault>
        ensures { Measures records places result }
    {
        if records < 1 || records > RECORDS || places < records || places > PLACES {
            return Err(OpenFault::Table);
        }
        Ok(TableSize {
            records: records as u16,
            places: places as u16,
        })
    }
}
