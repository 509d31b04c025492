//! A file that is explained.

/// A file's name and its bytes.
#[derive(Clone, Copy)]
pub struct Page<'a> {
    pub name: &'a str,
    pub bytes: &'a [u8],
}
