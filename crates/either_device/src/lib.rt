//! One of two devices.
//!
//! Proved, for any two devices: `Either` keeps the meaning of the device that it holds, and stands on the memory that it
//! stands on (specs/Eithers). Nothing is trusted but the toolchain.
#![tactic(auto)]

ghost use Rattle.std.specs.Prelude.{◌⊎◌};
ghost use Rattle.either_device.specs.Eithers.{lent_by, meant_by, meant_lawful};

use device::{Device, DeviceFault, Sector};

/// A device that is of one of two types. Each call is passed on to the device that is held.
// A type of its own: an impl for the kit's `either::Either` would have to stand beside `Device`, whose crate would then take
// that library for all devices.
#[derive(Drop)]
pub enum Either<A, B> {
    First(A),
    Second(B),
}

impl<A: Device, B: Device> Device for Either<A, B> {
    ghost meaning = { meant_by A.Device.meaning B.Device.meaning };

    ghost lawful = { meant_lawful A.Device.meaning B.Device.meaning A.Device.lawful B.Device.lawful };

    ghost Lender = { A.Device.Lender ⊎ B.Device.Lender };

    ghost lender = { lent_by A.Device.lender B.Device.lender };

    fn size(&self) -> usize {
        match self {
            Either::First(device) => device.size(),
            Either::Second(device) => device.size(),
        }
    }

    fn lit(&self) -> bool {
        match self {
            Either::First(device) => device.lit(),
            Either::Second(device) => device.lit(),
        }
    }

    fn read(&mut self, sector: usize, buffer: &mut Sector) -> Result<(), DeviceFault> {
        match self {
            Either::First(device) => device.read(sector, buffer),
            Either::Second(device) => device.read(sector, buffer),
        }
    }

    fn write(&mut self, sector: usize, bytes: &Sector) -> Result<(), DeviceFault> {
        match self {
            Either::First(device) => device.write(sector, bytes),
            Either::Second(device) => device.write(sector, bytes),
        }
    }

    fn sync(&mut self) -> Result<(), DeviceFault> {
        match self {
            Either::First(device) => device.sync(),
            Either::Second(device) => device.sync(),
        }
    }

    fn wake(&mut self) {
        match self {
            Either::First(device) => device.wake(),
            Either::Second(device) => device.wake(),
        }
    }
}
