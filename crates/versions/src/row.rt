use store::Version;

// A version in the table: whose it is, and the place of the version that it overwrote.
#[derive(Clone, Copy)]
pub(crate) struct Row<E> {
    pub(crate) version: Version<E>,
    pub(crate) owner: u32,
    pub(crate) older: Option<u16>,
}
