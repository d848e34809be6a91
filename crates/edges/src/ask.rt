// A store and a log, asked in the same words.
use crate::say::{Fault, Said, Size};
use crate::scenes::Ask;
use certifier::{Call, Log};
use std::alloc::Global;
use store::kind::Kind;
use store::{OpenFault, Store};
use versions::Versions;

impl<K: Kind> Ask for Versions<u32, K> {
    const NAME: &'static str = "store";

    fn fresh(heap: Global, size: Size) -> Result<Versions<u32, K>, OpenFault> {
        Versions::open(heap, size.records, size.places, 0)
    }

    fn ask(&mut self, call: Call<u32>) -> Result<Said, Fault> {
        Ok(match call {
            Call::Begin(console) => self.begin(console)?.into(),
            Call::Read(console, at) => self.read(console, at)?.into(),
            Call::Write(console, at, entry) => self.write(console, at, entry)?.into(),
            Call::Commit(console) => self.commit(console)?.into(),
            Call::Drop(console) => self.drop(console)?.into(),
        })
    }

    fn commits(&self) -> u16 {
        self.clock()
    }

    fn records(&self) -> u32 {
        self.size()
    }
}

// Kept: beside the impl for a store, since a store and a log have no trait in common of which both could be one impl.
impl<S: Store<u32>> Ask for Log<S, u32> {
    const NAME: &'static str = "log";

    fn fresh(heap: Global, size: Size) -> Result<Log<S, u32>, OpenFault> {
        Log::open(heap, size.records, size.places, 0)
    }

    fn ask(&mut self, call: Call<u32>) -> Result<Said, Fault> {
        Ok(self.call(call)?.into())
    }

    fn commits(&self) -> u16 {
        self.clock()
    }

    fn records(&self) -> u32 {
        self.size()
    }
}
