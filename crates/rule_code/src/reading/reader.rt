//! The bytes of a code file that are still to be read.

/// Reads a code file from left to right: each function that takes it leaves the bytes behind what it has read.
#[derive(Drop)]
pub(super) struct Reader<'a> {
    pub left: &'a [u8],
}
