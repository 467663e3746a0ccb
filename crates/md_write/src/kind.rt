/// The heaps that rows lead to (ECMA-335 II.24.2.3 to II.24.2.5).
#[derive(Clone, Copy, Debug, PartialEq, Eq)]
pub(crate) enum HeapKind {
    Strings,
    Guids,
    Blobs,
}
