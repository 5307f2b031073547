//! The sectors of a device from a base on.
ghost use Rattle.std.specs.Prelude.{◌≡◌, ◌+◌, ◌-◌, ◌<◌, ◌≤◌, MatchResult};
ghost use Rattle.device.specs.Calls.{DidRead, DidWrite, DidSync, Woken};
ghost use Rattle.device.specs.declared.fault.DeviceFault.TheVariants.{OutOfRange};
ghost use Rattle.device.specs.Shift.{shifted, shifted_lawful, told_below};

use crate::{Device, DeviceFault, Sector};

/// Sector s is the device's sector base + s; beside what the calls mean here, their contracts say (`own`) what becomes of
/// the whole device below, the sectors before the base too. A base past the end leaves size 0. Faults carry the number that was asked
/// here, not the device's.
#[derive(Drop)]
pub struct Offset<D> {
    device: D,
    base: usize,
}

impl<D> Offset<D> {
    pub fn new(device: D, base: usize) -> Offset<D>
        ensures { (result.device ≡ device) × (result.base ≡ base) }
    {
        Offset { device, base }
    }
}

impl<D: Device> Offset<D> {
    // The device's number of a sector; a sector past the size here has none.
    fn below(&self, sector: usize) -> Result<usize, DeviceFault>
        ensures { MatchResult result (λ t. (sector < (D.Device.meaning self.now.device).size - self.now.base) × (t ≡ self.now.base + sector)) (λ f. ((D.Device.meaning self.now.device).size - self.now.base ≤ sector) × (f ≡ OutOfRange sector)) }
    {
        if sector >= self.size() {
            return Err(DeviceFault::OutOfRange(sector));
        }
        Ok(self.base + sector)
    }
}

// The meaning and the lender are written out in each clause. (A model was tried: its value cannot name the type of the lender,
// and a meaning is made of functions, for which the prover has no code. `base` relates two moments, which no type can hold.)
impl<D: Device> Device for Offset<D> {
    ghost meaning = { λ o. shifted o.base (D.Device.meaning o.device) };

    ghost lawful = { λ o. shifted_lawful o.base (D.Device.meaning o.device) (D.Device.lawful o.device) };

    ghost Lender = { D.Device.Lender };

    ghost lender = { λ o. D.Device.lender o.device };

    fn size(&self) -> usize {
        self.device.size().saturating_sub(self.base)
    }

    fn lit(&self) -> bool {
        self.device.lit()
    }

    fn read(&mut self, sector: usize, buffer: &mut Sector) -> Result<(), DeviceFault>
        ensures did { DidRead (shifted self.old.base (D.Device.meaning self.old.device)) sector buffer.old result buffer.new (shifted self.new.base (D.Device.meaning self.new.device)) }
        ensures kept { D.Device.lender self.new.device ≡ D.Device.lender self.old.device }
        ensures own { DidRead (D.Device.meaning self.old.device) (self.old.base + sector) buffer.old (told_below (self.old.base + sector) result) buffer.new (D.Device.meaning self.new.device) }
        ensures base { self.new.base ≡ self.old.base }
    {
        let at = self.below(sector)?;
        self.device
            .read(at, buffer)
            .map_err(|fault| fault.told_of(sector))
    }

    fn write(&mut self, sector: usize, bytes: &Sector) -> Result<(), DeviceFault>
        ensures did { DidWrite (shifted self.old.base (D.Device.meaning self.old.device)) sector bytes.now result (shifted self.new.base (D.Device.meaning self.new.device)) }
        ensures kept { D.Device.lender self.new.device ≡ D.Device.lender self.old.device }
        ensures own { DidWrite (D.Device.meaning self.old.device) (self.old.base + sector) bytes.now (told_below (self.old.base + sector) result) (D.Device.meaning self.new.device) }
        ensures base { self.new.base ≡ self.old.base }
    {
        let at = self.below(sector)?;
        self.device
            .write(at, bytes)
            .map_err(|fault| fault.told_of(sector))
    }

    fn sync(&mut self) -> Result<(), DeviceFault>
        ensures did { DidSync (shifted self.old.base (D.Device.meaning self.old.device)) result (shifted self.new.base (D.Device.meaning self.new.device)) }
        ensures kept { D.Device.lender self.new.device ≡ D.Device.lender self.old.device }
        ensures own { DidSync (D.Device.meaning self.old.device) result (D.Device.meaning self.new.device) }
        ensures base { self.new.base ≡ self.old.base }
    {
        self.device.sync()
    }

    fn wake(&mut self)
        ensures did { Woken (shifted self.old.base (D.Device.meaning self.old.device)) (shifted self.new.base (D.Device.meaning self.new.device)) }
        ensures kept { D.Device.lender self.new.device ≡ D.Device.lender self.old.device }
        ensures own { Woken (D.Device.meaning self.old.device) (D.Device.meaning self.new.device) }
        ensures base { self.new.base ≡ self.old.base }
    {
        self.device.wake();
    }
}
