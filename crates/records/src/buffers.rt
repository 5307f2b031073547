//! Where a record is written.
ghost use Rattle.std.specs.Prelude.{◌≡◌, ◌+◌, ◌≤◌, [], ◌++◌, length};
ghost use Rattle.records.specs.LittleEndian.{le};
ghost use Rattle.records.specs.Sectors.{filled_up};

use crate::little_endian::LittleEndian;
use arrayvec::ArrayVec;
use std::convert::AsSlice;
use std::marker::Model;

/// The bytes of one record, written from the front on, of which there may be `N`. Clauses see the bytes.
#[derive(Drop)]
pub struct RecordBuffer<const N: usize> {
    bytes: ArrayVec<u8, N>,
}

impl<const N: usize> Model for RecordBuffer<N> {
    ghost use Rattle.std.specs.Prelude.{ℕ, List};

    ghost Value = { List ℕ };

    ghost view = { λ b. b.bytes.items };
}

impl<const N: usize> RecordBuffer<N> {
    /// Nothing written yet.
    pub fn new() -> Self
        ensures { result ≡ [] }
    {
        RecordBuffer {
            bytes: ArrayVec::new(),
        }
    }

    /// Adds a number after what is written.
    pub fn put<T: LittleEndian>(&mut self, number: T)
        requires { length self.old + T.width ≤ N }
        ensures bytes { self.new ≡ self.old ++ le T.width (T.number number) }
        ensures len { length self.new ≡ length self.old + T.width }
    {
        let _ = self.bytes.try_extend_from_slice(number.bytes().as_slice());
    }

    /// The bytes of the record.
    pub fn as_bytes(&self) -> &[u8]
        ensures { result.now ≡ self.now }
    {
        self.bytes.as_slice()
    }

    /// The record, and zeros up to `N` bytes.
    pub fn into_array(self) -> [u8; N]
        ensures { result ≡ filled_up N self.entry }
    {
        let mut out = [0; N];
        let record = self.as_bytes();
        out[..record.len()].copy_from_slice(record);
        out
    }
}

/// A record, for which a sector has room.
pub type Record = RecordBuffer<512>;
