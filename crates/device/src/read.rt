//! Reads that tell a torn sector from a fault.
ghost use Rattle.std.specs.Prelude.{◌≡◌};
ghost use Rattle.device.specs.Calls.{DidReadWhole};

use crate::{Device, DeviceFault, Sector};

// `kept` relates two moments, which no type can hold.
/// The bytes of a sector, or none where it is torn.
pub fn read_whole<D: Device>(device: &mut D, sector: usize) -> Result<Option<Sector>, DeviceFault>
    ensures did { DidReadWhole (D.meaning device.old) sector result (D.meaning device.new) }
    ensures kept { D.lender device.new ≡ D.lender device.old }
{
    let mut buffer = [0; 512];
    match device.read(sector, &mut buffer) {
        Ok(()) => Ok(Some(buffer)),
        Err(DeviceFault::Torn(_)) => Ok(None),
        Err(fault) => Err(fault),
    }
}
