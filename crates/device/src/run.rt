//! Lists of operations on any device.
ghost use Rattle.std.specs.Prelude.{◌≡◌};
ghost use Rattle.device.specs.Laws.{OneContentEach, OnlyWritesAdd, RunsGrow, RunsJoin, SettledLasts};
ghost use Rattle.device.specs.Runs.{DidPerform, DidRun, Grown, answer_unless_cut};

use crate::{Device, DeviceFault, Sector};

/// A call of a device. The exchange on paper names its device calls as lists of these.
#[derive(Clone, Copy)]
pub enum Operation {
    Read(usize),
    Write(usize, Sector),
    Sync,
    Wake,
}

// A cut is passed on. Any other fault is only a refusal that changed nothing.
fn unless_cut(answer: Result<(), DeviceFault>) -> Result<(), DeviceFault>
    ensures { result ≡ answer_unless_cut answer }
{
    match answer {
        Err(fault @ DeviceFault::Cut(_)) => Err(fault),
        _ => Ok(()),
    }
}

// `kept`, here and below, relates two moments, which no type can hold.
/// Performs one operation. Only a cut is answered as a fault: what is refused for another reason changes nothing.
pub fn perform<D: Device>(device: &mut D, operation: &Operation) -> Result<(), DeviceFault>
    ensures did { DidPerform (D.meaning device.old) operation.now result (D.meaning device.new) }
    ensures kept { D.lender device.new ≡ D.lender device.old }
{
    match *operation {
        Operation::Read(sector) => {
            let mut buffer = [0; 512];
            unless_cut(device.read(sector, &mut buffer))
        }
        Operation::Write(sector, bytes) => unless_cut(device.write(sector, &bytes)),
        Operation::Sync => device.sync(),
        Operation::Wake => {
            device.wake();
            Ok(())
        }
    }
}

/// Performs the operations of a list in order until one is cut.
pub fn run<D: Device>(device: &mut D, script: &[Operation]) -> Result<(), DeviceFault>
    ensures did { DidRun (D.meaning device.old) script.now result (D.meaning device.new) }
    ensures grown { Grown (D.meaning device.old) script.now (D.meaning device.new) }
    ensures kept { D.lender device.new ≡ D.lender device.old }
{
    for operation in script {
        perform(device, operation)?;
    }
    Ok(())
}

/// The laws that users of a device lean on.
pub fn laws_hold()
    ensures adds { OnlyWritesAdd }
    ensures syncs { OneContentEach }
    ensures runs { RunsGrow }
    ensures settled { SettledLasts }
    ensures joins { RunsJoin }
{}
