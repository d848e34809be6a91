// The log: a store, the marks of its versions, what its open transactions did, and its commits by rank.
use crate::marks::Marks;
use crate::ranks::Ranks;
use crate::track::Tracks;
use std::marker::PhantomData;

/// A log of entries `E` above a store `S` of its own.
// Kept: seen by `log_state` and no Model, since a view over the state of `S` would ask its bound of each struct that holds a log.
#[derive(Drop)]
pub struct Log<S, E> {
    pub(crate) store: S,
    pub(crate) marks: Marks,
    pub(crate) tracks: Tracks,
    pub(crate) ranks: Ranks,
    pub(crate) entries: PhantomData<E>,
}
