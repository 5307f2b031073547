//! A sector device: what it means, what its calls do to that meaning, and a layer over any device.
//!
//! A device means its size, whether it is lit (has power), what each sector of 512 bytes reads as (bytes or torn), and
//! for each sector the set of contents that a cut of the power may leave there (specs/Meaning). `Device` says so by its
//! ghost member `meaning`; each call's contract is one relation of the meaning before, the arguments, the answer and the
//! meaning after (specs/Calls). Code that is generic over `Device` is proved once for every device.
//!
//! Proved: `Offset` keeps the meaning over any device; `read_whole` tells a torn sector from a fault; `run` performs a list
//! of operations in order until one is cut; the laws that users lean on (specs/Laws) hold of every device. Nothing is
//! trusted but the toolchain.
#![tactic(auto)]

ghost use Rattle.std.specs.Prelude.{◌≡◌, ℕ, ◌<◌, ◌≤◌};
ghost use Rattle.device.specs.Calls.{DidRead, DidSync, DidWrite, Woken};
ghost use Rattle.device.specs.Meaning.{Lawful, Meaning};

pub use fault::DeviceFault;
pub use read::read_whole;

pub mod fault;
pub mod offset;
pub mod read;
pub mod run;

/// The bytes of a sector.
pub type Sector = [u8; 512];

/// A device of sectors.
pub trait Device {
    ghost meaning: { Self → Meaning };

    ghost lawful: { (x : Self) → Lawful (meaning x) };

    // The memory that the device stands on, where that is lent. Every call leaves it: what a proof needs to tell the owner
    // of lent bytes what they hold when the device is gone.
    // (`kept` relates two moments, which no type can hold: each call says it.)
    ghost Lender: { Type 0 };

    ghost lender: { Self → Lender };

    fn size(&self) -> usize
        ensures { result ≡ (meaning self.now).size };

    fn lit(&self) -> bool
        ensures { result ≡ (meaning self.now).lit };

    fn read(&mut self, sector: usize, buffer: &mut Sector) -> Result<(), DeviceFault>
        ensures did { DidRead (meaning self.old) sector buffer.old result buffer.new (meaning self.new) }
        ensures kept { lender self.new ≡ lender self.old };

    fn write(&mut self, sector: usize, bytes: &Sector) -> Result<(), DeviceFault>
        ensures did { DidWrite (meaning self.old) sector bytes.now result (meaning self.new) }
        ensures kept { lender self.new ≡ lender self.old };

    fn sync(&mut self) -> Result<(), DeviceFault>
        ensures did { DidSync (meaning self.old) result (meaning self.new) }
        ensures kept { lender self.new ≡ lender self.old };

    fn wake(&mut self)
        ensures did { Woken (meaning self.old) (meaning self.new) }
        ensures kept { lender self.new ≡ lender self.old };
}
