//! A mirror: two devices, of any kinds, that hold the same sectors.
//!
//! Its size is the smaller one. It is lit where both halves are. A write goes to both; a read takes half A, or B where A is
//! torn; a sync makes both halves equal to what the mirror reads. So a sector is lost only where both halves lost it.
//!
//! Proved, for any two devices: the mirror keeps the meaning of a device with the sets of specs/Halves, and each call does to
//! each half what is said there. Nothing is trusted but the toolchain.
#![tactic(auto)]

ghost use Rattle.std.specs.Prelude.{◌≡◌, ◌<◌, false, MatchResult};
ghost use Rattle.device.specs.Calls.{DidRead, DidReadWhole, DidSync, DidWrite, Woken};
ghost use Rattle.mirror.specs.Halves.{Gate, ReadHalves, SyncedHalves, WroteHalves, lenders, mirrored, mirrored_lawful};
ghost use Rattle.mirror.specs.Mends.{brought, MendsAll, MendsOne, SyncsBoth, Tight};

use device::{Device, DeviceFault, Sector};

#[derive(Drop)]
pub struct Mirror<A, B> {
    a: A,
    b: B,
}

impl<A, B> Mirror<A, B> {
    pub fn new(a: A, b: B) -> Mirror<A, B>
        ensures { (result.a ≡ a) × (result.b ≡ b) }
    {
        Mirror { a, b }
    }
}

// Whether a sector has bytes, which are then in the buffer. (Not `read_whole`, which hands them up by value: a sync reads every sector
// of both halves, and took twice the time so.)
fn look<D: Device>(device: &mut D, sector: usize, buffer: &mut Sector) -> Result<bool, DeviceFault>
    ensures did { DidReadWhole (D.meaning device.old) sector (brought result buffer.new) (D.meaning device.new) }
    ensures left { MatchResult result (λ found. found ≡ false → buffer.new ≡ buffer.old) (λ _. buffer.new ≡ buffer.old) }
    ensures kept { D.lender device.new ≡ D.lender device.old }
{
    match device.read(sector, buffer) {
        Ok(()) => Ok(true),
        Err(DeviceFault::Torn(_)) => Ok(false),
        Err(fault) => Err(fault),
    }
}

// The meanings and lenders of both halves are written out in each clause. (A model was tried: its value cannot name the types
// of the lenders, which the clauses need beside the meanings.)
impl<A: Device, B: Device> Mirror<A, B> {
    // Lets a read or a write through; one past the size or in the dark is stopped.
    fn pass(&self, sector: usize) -> Result<(), DeviceFault>
        ensures { Gate (A.Device.meaning self.now.a) (B.Device.meaning self.now.b) sector result }
    {
        if sector >= self.size() {
            return Err(DeviceFault::OutOfRange(sector));
        }
        if !self.lit() {
            return Err(DeviceFault::Cut(sector));
        }
        Ok(())
    }

    // Makes a sector of both halves what the two together read.
    fn mend(&mut self, sector: usize) -> Result<(), DeviceFault>
        requires inside_a { sector < (A.Device.meaning self.old.a).size }
        requires inside_b { sector < (B.Device.meaning self.old.b).size }
        ensures did { MendsOne (A.Device.meaning self.old.a) (B.Device.meaning self.old.b) sector result (A.Device.meaning self.new.a) (B.Device.meaning self.new.b) }
        ensures kept { lenders (A.Device.lender self.new.a) (B.Device.lender self.new.b) ≡ lenders (A.Device.lender self.old.a) (B.Device.lender self.old.b) }
    {
        let mut x = [0; 512];
        let mut y = [0; 512];
        let first = look(&mut self.a, sector, &mut x)?;
        let second = look(&mut self.b, sector, &mut y)?;
        match (first, second) {
            (false, false) => Ok(()),
            (false, true) => self.a.write(sector, &y),
            (true, true) if x == y => Ok(()),
            (true, _) => self.b.write(sector, &x),
        }
    }

    // Makes every sector of both halves what the two together read, in order.
    fn mend_all(&mut self) -> Result<(), DeviceFault>
        requires tight_a { Tight (A.Device.meaning self.old.a) }
        requires tight_b { Tight (B.Device.meaning self.old.b) }
        ensures did { MendsAll (A.Device.meaning self.old.a) (B.Device.meaning self.old.b) result (A.Device.meaning self.new.a) (B.Device.meaning self.new.b) }
        ensures kept { lenders (A.Device.lender self.new.a) (B.Device.lender self.new.b) ≡ lenders (A.Device.lender self.old.a) (B.Device.lender self.old.b) }
    {
        for sector in 0..self.size() {
            self.mend(sector)?;
        }
        Ok(())
    }

    fn sync_both(&mut self) -> Result<(), DeviceFault>
        ensures did { SyncsBoth (A.Device.meaning self.old.a) (B.Device.meaning self.old.b) result (A.Device.meaning self.new.a) (B.Device.meaning self.new.b) }
        ensures kept { lenders (A.Device.lender self.new.a) (B.Device.lender self.new.b) ≡ lenders (A.Device.lender self.old.a) (B.Device.lender self.old.b) }
    {
        self.a.sync()?;
        self.b.sync()
    }
}

impl<A: Device, B: Device> Device for Mirror<A, B> {
    ghost meaning = { λ m. mirrored (A.Device.meaning m.a) (B.Device.meaning m.b) };

    ghost lawful = { λ m. mirrored_lawful (A.Device.meaning m.a) (B.Device.meaning m.b) (A.Device.lawful m.a) (B.Device.lawful m.b) };

    ghost Lender = { A.Device.Lender × B.Device.Lender };

    ghost lender = { λ m. lenders (A.Device.lender m.a) (B.Device.lender m.b) };

    fn size(&self) -> usize {
        self.a.size().min(self.b.size())
    }

    fn lit(&self) -> bool {
        self.a.lit() && self.b.lit()
    }

    // Reads A, and B where A is torn.
    fn read(&mut self, sector: usize, buffer: &mut Sector) -> Result<(), DeviceFault>
        ensures did { DidRead (mirrored (A.Device.meaning self.old.a) (B.Device.meaning self.old.b)) sector buffer.old result buffer.new (mirrored (A.Device.meaning self.new.a) (B.Device.meaning self.new.b)) }
        ensures own { ReadHalves (A.Device.meaning self.old.a) (B.Device.meaning self.old.b) sector result buffer.new (A.Device.meaning self.new.a) (B.Device.meaning self.new.b) }
        ensures kept { lenders (A.Device.lender self.new.a) (B.Device.lender self.new.b) ≡ lenders (A.Device.lender self.old.a) (B.Device.lender self.old.b) }
    {
        self.pass(sector)?;
        if look(&mut self.a, sector, buffer)? {
            return Ok(());
        }
        self.b.read(sector, buffer)
    }

    // Writes A and then B.
    fn write(&mut self, sector: usize, bytes: &Sector) -> Result<(), DeviceFault>
        ensures did { DidWrite (mirrored (A.Device.meaning self.old.a) (B.Device.meaning self.old.b)) sector bytes.now result (mirrored (A.Device.meaning self.new.a) (B.Device.meaning self.new.b)) }
        ensures own { WroteHalves (A.Device.meaning self.old.a) (B.Device.meaning self.old.b) sector bytes.now result (A.Device.meaning self.new.a) (B.Device.meaning self.new.b) }
        ensures kept { lenders (A.Device.lender self.new.a) (B.Device.lender self.new.b) ≡ lenders (A.Device.lender self.old.a) (B.Device.lender self.old.b) }
    {
        self.pass(sector)?;
        self.a.write(sector, bytes)?;
        self.b.write(sector, bytes)
    }

    // Syncs both, makes them equal, and syncs both again.
    fn sync(&mut self) -> Result<(), DeviceFault>
        ensures did { DidSync (mirrored (A.Device.meaning self.old.a) (B.Device.meaning self.old.b)) result (mirrored (A.Device.meaning self.new.a) (B.Device.meaning self.new.b)) }
        ensures own { SyncedHalves (A.Device.meaning self.old.a) (B.Device.meaning self.old.b) result (A.Device.meaning self.new.a) (B.Device.meaning self.new.b) }
        ensures kept { lenders (A.Device.lender self.new.a) (B.Device.lender self.new.b) ≡ lenders (A.Device.lender self.old.a) (B.Device.lender self.old.b) }
    {
        if !self.lit() {
            return Err(DeviceFault::Cut(0));
        }
        self.sync_both()?;
        self.mend_all().map_err(|fault| fault.told_of(0))?;
        self.sync_both()
    }

    fn wake(&mut self)
        ensures did { Woken (mirrored (A.Device.meaning self.old.a) (B.Device.meaning self.old.b)) (mirrored (A.Device.meaning self.new.a) (B.Device.meaning self.new.b)) }
        ensures own { Woken (A.Device.meaning self.old.a) (A.Device.meaning self.new.a) × Woken (B.Device.meaning self.old.b) (B.Device.meaning self.new.b) }
        ensures kept { lenders (A.Device.lender self.new.a) (B.Device.lender self.new.b) ≡ lenders (A.Device.lender self.old.a) (B.Device.lender self.old.b) }
    {
        self.a.wake();
        self.b.wake();
    }
}
