/// The streams of metadata that its tables stand in and lead to (ECMA-335 II.24.2.2).
#[derive(Clone, Copy, Debug)]
pub struct Streams<'a> {
    /// The stream of the tables, `#~`.
    pub tables: &'a [u8],
    /// The heap of names.
    pub strings: &'a [u8],
    /// The heap of GUIDs.
    pub guid: &'a [u8],
    /// The heap of blobs.
    pub blob: &'a [u8],
}
