//! Numbers in bytes, the lowest byte first.
ghost use Rattle.std.specs.Prelude.{◌≡◌, ℕ, ◌+◌, ◌≤◌, length};
ghost use Rattle.records.specs.LittleEndian.{le, field};

use std::convert::AsSlice;

/// An unsigned number that has so many bytes.
pub trait LittleEndian: Copy {
    type Bytes: AsSlice<u8> + Drop;

    ghost width: { ℕ };

    ghost number: { Self → ℕ };

    /// Its bytes.
    fn bytes(self) -> Self::Bytes
        ensures { Self.Bytes.items result ≡ le width (number self) };

    /// The number in the bytes from `at` on.
    // Bytes and a place in them go together here as in the library; a struct of both would only be taken apart. The bytes
    // are named one by one, since `try_from` of a slice answers a Result that is never an error here.
    fn take(bytes: &[u8], at: usize) -> Self
        requires { at + width ≤ length bytes.now }
        ensures { number result ≡ field at width bytes.now };
}

// Three impls of one shape: `to_le_bytes` is each type's own and of no trait, and the gate takes no impl that a macro of ours
// writes.
impl LittleEndian for u16 {
    type Bytes = [u8; 2];

    ghost width = { 2 };

    ghost number = { λ n. n };

    fn bytes(self) -> [u8; 2] {
        self.to_le_bytes()
    }

    fn take(bytes: &[u8], at: usize) -> u16 {
        u16::from_le_bytes([bytes[at], bytes[at + 1]])
    }
}

impl LittleEndian for u32 {
    type Bytes = [u8; 4];

    ghost width = { 4 };

    ghost number = { λ n. n };

    fn bytes(self) -> [u8; 4] {
        self.to_le_bytes()
    }

    fn take(bytes: &[u8], at: usize) -> u32 {
        u32::from_le_bytes([bytes[at], bytes[at + 1], bytes[at + 2], bytes[at + 3]])
    }
}

impl LittleEndian for u64 {
    type Bytes = [u8; 8];

    ghost width = { 8 };

    ghost number = { λ n. n };

    fn bytes(self) -> [u8; 8] {
        self.to_le_bytes()
    }

    fn take(bytes: &[u8], at: usize) -> u64 {
        u64::from_le_bytes([
            bytes[at],
            bytes[at + 1],
            bytes[at + 2],
            bytes[at + 3],
            bytes[at + 4],
            bytes[at + 5],
            bytes[at + 6],
            bytes[at + 7],
        ])
    }
}
