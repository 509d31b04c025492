//! The bytes of one direction in memory.
ghost use Rattle.std.specs.Prelude.{◌≤◌, length};

/// The bytes of one direction, and how many of them came out.
#[derive(Drop)]
pub(super) struct Queue {
    pub(super) bytes: Vec<u8>,
    pub(super) place: usize,
    ghost within: { place ≤ length bytes.items },
}
