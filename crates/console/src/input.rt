//! Lines from bytes, in memory that does not grow.
use arrayvec::ArrayVec;

pub mod fills;
pub mod lines;

/// The bytes of a line so far, of which it may have 255. A 256th is kept as the sign that more came.
#[derive(Drop)]
pub struct LineBuffer {
    bytes: ArrayVec<u8, 256>,
}
